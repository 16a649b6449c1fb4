// What an argument of the program is.
#![tactic(auto)]

ghost use Rattle.std.specs.Prelude.{◌≡◌};
ghost use Rattle.arguments.specs.Arguments.{kind_of, name_of};

use octets::same_bytes;

// What stands before the file name in an argument that names a table.
const TABLE_SIGN: &[u8] = b"table=";

// The argument that turns mitigation off.
const RAW_SIGN: &[u8] = b"raw";

// What an argument is.
#[derive(Clone, Copy, Debug, PartialEq, Eq)]
pub enum ArgumentKind {
    // `table=FILE`. With nothing after the sign it names a file that cannot be read.
    Table,
    Raw,
    Unknown,
}

// Which kind of argument it is.
pub fn kind_of(arg: &[u8]) -> ArgumentKind
    ensures { result ≡ kind_of arg.now }
{
    if arg.starts_with(TABLE_SIGN) {
        return ArgumentKind::Table;
    }
    if same_bytes(arg, RAW_SIGN) {
        return ArgumentKind::Raw;
    }
    ArgumentKind::Unknown
}

// The file name in an argument that begins with `table=`.
pub fn file_name(arg: &[u8]) -> &[u8]
    ensures { result.now ≡ name_of arg.now }
{
    arg.get(TABLE_SIGN.len()..).unwrap_or(&[])
}
