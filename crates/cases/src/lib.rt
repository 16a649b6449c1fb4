// What the programs that run the library read: files, and cases written as text, a line each, with a space between fields.
#![tactic(auto)]

ghost use Rattle.std.specs.Prelude.{◌≡◌, ◌==◌, ℕ, ◌<◌, ◌≤◌, IfOk, length, take, vec_len};
ghost use Rattle.std.specs.List.{count_by, after_first};
ghost use Rattle.stream.specs.Fold.{mode_of};
ghost use Rattle.cases.specs.Lines.{field_end, field_of, from_field};
ghost use Rattle.cases.specs.Numbers.{with_digit, number_at, word_field, flags_of_bits};

use detect::Mode;
use flags::Flags;
use std::alloc::Global;
use std::io::{BufWriter, Printer, Read, Write};
use std::rt::Files;
use std::{fs, io};

// Bytes in the longest text, and words in the longest table and in the longest table of conditions.
pub const MOST_TEXT: usize = 262144;

pub const MOST_TABLE: usize = 2706;

pub const MOST_CONDITION_WORDS: usize = 3078;

// Field i of a line, empty where it has not so many.
pub fn field(line: &[u8], i: usize) -> &[u8]
    ensures { result.now ≡ field_of line.now i }
{
    line.split(|b| *b == b' ').nth(i).unwrap_or(&[])
}

// What stands behind the first space, nothing where there is none.
fn behind_space(line: &[u8]) -> &[u8]
    ensures { result.now ≡ after_first (λ b. b == field_end) line.now }
{
    match line.iter().position(|b| *b == b' ') {
        Some(at) => &line[at + 1..],
        None => &[],
    }
}

// The line from field i to its end, which stands behind the i-th space: a case's name, which may have spaces of its own.
#[tactic(auto, unfolding(crate::specs::Lines::from_field))]
pub fn from_field(line: &[u8], i: usize) -> &[u8]
    ensures { result.now ≡ from_field line.now i }
{
    let mut rest = line;
    for passed in 0..i {
        rest = behind_space(rest);
    }
    rest
}

// How many spaces a line has.
pub fn spaces(line: &[u8]) -> usize
    ensures { result ≡ count_by (λ b. b == field_end) line.now }
{
    line.iter().filter(|b| **b == b' ').count()
}

// A number with one more digit behind its last 18.
fn with_digit(n: usize, digit: u8) -> usize
    ensures { result ≡ with_digit n digit }
{
    10 * (n % 1000000000000000000) + usize::from(digit % 16)
}

// Field i as a number: each byte of it is taken for a digit, by its low half.
pub fn number_at(line: &[u8], i: usize) -> usize
    ensures { result ≡ number_at line.now i }
{
    field(line, i)
        .iter()
        .fold(0, |n, digit| with_digit(n, *digit))
}

// Field i as a word.
pub fn word_field(line: &[u8], i: usize) -> u32
    ensures { result ≡ word_field line.now i }
{
    (number_at(line, i) % 0x100000000) as u32
}

// The flags of five bits: 1 detect, 2 mitigate, 4 masks lent, 8 reduced-round, 16 conditions, whatever the masks' bit is.
pub fn flags_of_bits(bits: usize) -> Flags
    ensures { result ≡ flags_of_bits bits }
{
    let has = |bit: usize| bits / bit % 2 == 1;
    let flags = Flags::new()
        .detect_collision(has(1))
        .safe_hash(has(2))
        .use_ubc(has(4))
        .reduced_round_collision(has(8));
    if has(16) {
        flags.use_conditions(true)
    } else {
        flags
    }
}

// What a block is told of the flags' bits.
pub fn mode_of_bits(bits: usize) -> Mode
    ensures { result ≡ mode_of (flags_of_bits bits) }
{
    let flags = flags_of_bits(bits);
    Mode {
        mitigate: flags.mitigate,
        reduced: flags.reduced,
    }
}

// The first n of some items, or all of them.
pub fn front<T>(items: &[T], n: usize) -> &[T]
    ensures { result.now ≡ take n items.now }
{
    items.get(..n).unwrap_or(items)
}

// 33 control records, each with its place as its mask number, and test step 58.
fn controls() -> [u32; MOST_TABLE] {
    let mut t = [0u32; MOST_TABLE];
    for (i, record) in t.chunks_exact_mut(82).enumerate() {
        record[0] = i as u32;
        record[1] = 58;
    }
    t
}

// 513 conditions, one more than a table of them may have. Each names one bit twice and wants it to differ from itself, so that it
// drops the vectors with mask number 0 from every block.
fn dropping() -> [u32; MOST_CONDITION_WORDS] {
    let mut t = [0u32; MOST_CONDITION_WORDS];
    for condition in t.chunks_exact_mut(6) {
        condition[4] = 1;
        condition[5] = 1;
    }
    t
}

// Two words changed, where they are there: fields i and i + 2 have their places, those behind them the words.
fn change_two(t: &mut [u32], line: &[u8], i: usize)
    requires { i < 32 }
    ensures { length t.new ≡ length t.old }
{
    for k in [i, i + 2] {
        if let Some(word) = t.get_mut(number_at(line, k)) {
            *word = word_field(line, k + 1);
        }
    }
}

// 33 control records of which a case changes two words, by fields 2 to 5.
pub fn records_of(line: &[u8]) -> [u32; MOST_TABLE]
    ensures { 2706 ≡ length result }
{
    let mut t = controls();
    change_two(&mut t, line, 2);
    t
}

// 513 conditions that drop mask number 0, of which a case changes two words, by the four fields from i on.
pub fn conditions_of(line: &[u8], i: usize) -> [u32; MOST_CONDITION_WORDS]
    requires { i < 32 }
    ensures { 3078 ≡ length result }
{
    let mut t = dropping();
    change_two(&mut t, line, i);
    t
}

// Gives each line that is not empty to `play`, with its first byte.
pub fn each_line<W: Write, F: FnMut(&mut W, u8, &[u8]) -> io::Result<()>>(
    text: &[u8],
    out: &mut W,
    mut play: F,
) -> io::Result<()>
    requires { F.IsAlwaysCallable play }
{
    for line in text.split(|b| *b == b'\n') {
        if let Some(letter) = line.first() {
            play(out, *letter, line)?;
        }
    }
    Ok(())
}

// Writes a title: what stands behind a line's first space.
pub fn write_title<W: Write>(out: &mut W, line: &[u8]) -> io::Result<()> {
    out.write_all(from_field(line, 1))?;
    out.write_all(b"\n")
}

// Gives each case of a text to `play`, with its letter, the first byte: `#` begins a comment, and `=` a title, which is written.
pub fn each_case<W: Write, F: FnMut(&mut W, u8, &[u8]) -> io::Result<()>>(
    text: &[u8],
    out: &mut W,
    mut play: F,
) -> io::Result<()>
    requires { F.IsAlwaysCallable play }
{
    for line in text.split(|b| *b == b'\n') {
        match line.first() {
            None | Some(b'#') => {}
            Some(b'=') => write_title(out, line)?,
            Some(letter) => play(out, *letter, line)?,
        }
    }
    Ok(())
}

// The file of a name, if there is one that can be read.
fn opened<R: Files>(rt: &R, name: &[u8]) -> Option<R::File> {
    fs::open(rt, str::from_utf8(name).ok()?).ok()
}

// The first n bytes of a file, or all of them; where a read fails, those before it. Where no file of the name can be opened a line
// says so, and there are none.
fn file_front<R: Files + AllocGlobal, W: Write>(
    rt: &R,
    out: &mut W,
    name: &[u8],
    n: usize,
) -> io::Result<Vec<u8>>
    ensures { IfOk result (λ bytes. vec_len bytes ≤ n) }
{
    let mut bytes = Vec::new(rt.alloc());
    let Some(file) = opened(rt, name) else {
        writeln!(out, "no file")?;
        return Ok(bytes);
    };
    let mut front = file.take(n as u64);
    match front.read_to_end(&mut bytes) {
        Err(e) if e.kind() == io::ErrorKind::OutOfMemory => return Err(e),
        _ => {}
    }
    bytes.truncate(n);
    Ok(bytes)
}

// The first n bytes of a file. Where it has not so many a line says so, and there are zeros behind them.
pub fn file_filling<R: Files + AllocGlobal, W: Write>(
    rt: &R,
    out: &mut W,
    name: &[u8],
    n: usize,
) -> io::Result<Vec<u8>>
    ensures { IfOk result (λ bytes. vec_len bytes ≡ n) }
{
    let mut bytes = file_front(rt, out, name, n)?;
    if bytes.len() < n {
        writeln!(out, "short file")?;
    }
    bytes.resize(n, 0)?;
    Ok(bytes)
}

// The text of a file; of a longer one than there may be, the front. Where there is no file a line says so, and the text is empty.
pub fn file_text<R: Files + AllocGlobal, W: Write>(
    rt: &R,
    out: &mut W,
    name: &[u8],
) -> io::Result<Vec<u8>>
    ensures { IfOk result (λ bytes. vec_len bytes ≤ 262144) }
{
    file_front(rt, out, name, MOST_TEXT)
}

// Gives each case of a file to `play`, which writes to the standard output.
pub fn play_cases<'a, R: Files + AllocGlobal + Print, F>(
    rt: &'a R,
    name: &[u8],
    play: F,
) -> io::Result<()>
where
    F: FnMut(&mut BufWriter<Printer<'a, R>, Global>, u8, &[u8]) -> io::Result<()>,
    requires { F.IsAlwaysCallable play }
{
    let mut out = BufWriter::new(rt.alloc(), io::writer(rt))?;
    let text = file_text(rt, &mut out, name)?;
    each_case(&text, &mut out, play)?;
    out.flush()
}
