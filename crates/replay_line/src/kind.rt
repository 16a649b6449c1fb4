// What a line of the list is.
ghost use Rattle.std.specs.Prelude.{◌≡◌, ◌<◌};
ghost use Rattle.replay_line.specs.Kinds.{named, is_refused, given_fields, answer_fields, fields_of, is_alone, with_fields, line_kind};

use cases::spaces;

#[derive(Clone, Copy, Debug, PartialEq, Eq)]
pub enum Kind {
    Comment,
    Table,
    Block,
    Fresh,
    Update,
    Finish,
    FinishReset,
    OneShot,
    Reset,
}

impl Kind {
    // The kind of a letter. A capital stands for the same, refused; a fresh hasher and its reset never are.
    fn named(letter: u8) -> Option<Kind>
        ensures { result ≡ named letter }
    {
        match letter {
            b't' | b'T' => Some(Kind::Table),
            b'b' | b'B' => Some(Kind::Block),
            b'n' => Some(Kind::Fresh),
            b'u' | b'U' => Some(Kind::Update),
            b'f' | b'F' => Some(Kind::Finish),
            b'r' | b'R' => Some(Kind::FinishReset),
            b'o' | b'O' => Some(Kind::OneShot),
            b'z' => Some(Kind::Reset),
            _ => None,
        }
    }

    // How many fields stand after the letter for what is given.
    fn given_fields(self) -> usize
        ensures value { result ≡ given_fields self }
        ensures small { result < 5 }
    {
        match self {
            Kind::Comment | Kind::Reset => 0,
            Kind::Table | Kind::Fresh | Kind::Finish | Kind::FinishReset => 1,
            Kind::Update | Kind::OneShot => 2,
            Kind::Block => 4,
        }
    }

    // How many stand after those for the answer.
    fn answer_fields(self) -> usize
        ensures value { result ≡ answer_fields self }
        ensures small { result < 5 }
    {
        match self {
            Kind::Comment | Kind::Table | Kind::Fresh | Kind::Reset => 0,
            Kind::Finish | Kind::FinishReset | Kind::OneShot => 2,
            Kind::Block | Kind::Update => 4,
        }
    }

    // A refusal has two in place of the answer's: its number and its place.
    fn fields(self, refused: bool) -> usize
        ensures { result ≡ fields_of self refused }
    {
        self.given_fields() + if refused { 2 } else { self.answer_fields() }
    }

    // The kind, if it has so many fields.
    fn with_fields(self, refused: bool, n: usize) -> Option<Kind>
        ensures { result ≡ with_fields self refused n }
    {
        (n == self.fields(refused)).then_some(self)
    }
}

// Whether a line says that what it has is refused: it begins with a capital.
pub fn is_refused(line: &[u8]) -> bool
    ensures { result ≡ is_refused line.now }
{
    matches!(line, [b'A'..=b'Z', ..])
}

// Whether a line's first byte is all of it, or a space stands after it.
fn is_alone(line: &[u8]) -> bool
    ensures { result ≡ is_alone line.now }
{
    !matches!(line, [_, after, ..] if *after != b' ')
}

// A line's kind by its letter and its number of fields; none where it can't be read.
#[tactic(auto, unfolding(crate::specs::Kinds::line_kind))]
pub fn line_kind(line: &[u8]) -> Option<Kind>
    ensures { result ≡ line_kind line.now }
{
    match line {
        [] => None,
        [b'#', ..] => Some(Kind::Comment),
        [letter, ..] if is_alone(line) => {
            Kind::named(*letter)?.with_fields(is_refused(line), spaces(line))
        }
        _ => None,
    }
}
