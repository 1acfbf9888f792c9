// The types that the definitions share with the code.
#![tactic(auto)]

ghost use Rattle.std.specs.Prelude.{◌≡◌};
ghost use Rattle.format.specs.Reply.{refusal_of};

// A field's coded number as the card holds it. 0 is missing.
#[derive(Clone, Copy, Debug, PartialEq, Eq)]
pub struct Coded(pub u16);

// A field's scaled value, in the field's unit: the coded number plus the base.
#[derive(Clone, Copy, Debug, PartialEq, Eq)]
pub struct Scaled(pub i64);

// A library's own table of permitted flags: for flag j and value v the mark at [j - 1][v - 1], where 1 is yes and any other
// number no.
pub type FlagTable = [[u8; 10]; 14];

// Why a call is refused: a case for each number, with the place where that is not always 0.
#[derive(Clone, Copy, Debug, PartialEq, Eq)]
pub enum Refusal {
    // A buffer under 38 bytes, place 0; or an attachment that does not fit, by its position.
    Short(usize),
    // A coded number above the highest, by its field.
    Code(usize),
    // A required field that is missing.
    Missing(usize),
    Checksum,
    // An attachment's AL or AID, by its position.
    Attachment(usize),
    // An attachment's content, by its position.
    Body(usize),
    Padding,
    // A field, flag or id of no such number.
    Number,
    // A value out of range, by its field or flag.
    Value(usize),
    // A required field that is cleared or absent.
    Required(usize),
    // An id that does not stand.
    NoSuch,
    // A content of no nibble, or of too many.
    Length,
    Room,
    Content,
    // A table of permitted flags.
    Table,
}

impl Refusal {
    pub fn number(self) -> u8
        ensures { result ≡ (refusal_of self).number }
    {
        match self {
            Refusal::Short(_) => 1,
            Refusal::Code(_) => 2,
            Refusal::Missing(_) => 3,
            Refusal::Checksum => 4,
            Refusal::Attachment(_) => 5,
            Refusal::Body(_) => 6,
            Refusal::Padding => 7,
            Refusal::Number => 8,
            Refusal::Value(_) => 9,
            Refusal::Required(_) => 10,
            Refusal::NoSuch => 11,
            Refusal::Length => 12,
            Refusal::Room => 13,
            Refusal::Content => 14,
            Refusal::Table => 16,
        }
    }

    pub fn place(self) -> usize
        ensures { result ≡ (refusal_of self).place }
    {
        match self {
            Refusal::Short(place)
            | Refusal::Code(place)
            | Refusal::Missing(place)
            | Refusal::Attachment(place)
            | Refusal::Body(place)
            | Refusal::Value(place)
            | Refusal::Required(place) => place,
            _ => 0,
        }
    }
}

// The character set of the input deck.
#[derive(Clone, Copy, Debug, PartialEq, Eq)]
pub enum DeckSet {
    Unknown,
    Ebcdic,
    Ascii,
}

// What an accepted call on a buffer gives.
#[derive(Clone, Copy, Debug, PartialEq, Eq)]
pub enum Outcome {
    Nothing,
    // A field's scaled value, none where the field is missing.
    Value(Option<Scaled>),
    // A flag's value, 1 to 10, none where the flag is missing.
    Flag(Option<u8>),
    // How many bytes a fetch wrote, or the finding of indicators.
    Count(usize),
    // How many nibbles of content a put of the ship text wrote.
    Nibbles(u8),
    // How many symbols a fetch of the ship text wrote, the deck's set, and how many nibbles of content it read.
    Text(usize, DeckSet, u8),
}

// What a call on a buffer answers.
pub type Reply = Result<Outcome, Refusal>;
