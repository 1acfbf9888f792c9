// Bytes of a script and of its log: numbers read and written, answers labelled and written.
#![tactic(auto)]

ghost use Rattle.std.specs.Prelude.{◌≡◌, ◌+◌, ◌≤◌, ◌∷◌, length, Ok, Err};
ghost use Rattle.format.specs.Calls.{over};
ghost use Rattle.format.specs.ShipText.{set_number};
ghost use Rattle.format.specs.Reply.{set_of, answer_of, givens_of};
ghost use Rattle.script.specs.Labels.{missing_label, label_number, labelled_row};
ghost use Rattle.script.specs.Script.{number_at, bytes8, head_of};

use format::{DeckSet, Outcome, Refusal, Reply};

// What a given number is, by its label.
#[derive(Clone, Copy, Debug, PartialEq, Eq)]
pub enum Label {
    Value = 1,
    Flag = 2,
    Count = 3,
    Bytes = 8,
    Nibbles = 9,
    Deck = 10,
}

// So much more where the number is missing.
const MISSING: u8 = 128;

// A given number behind its label, in two's complement. Both are 0 where none is given.
#[derive(Clone, Copy, Debug, PartialEq, Eq)]
pub struct Labelled {
    pub label: u8,
    pub number: u64,
}

// No number.
pub const NONE: Labelled = Labelled {
    label: 0,
    number: 0,
};

// The number in 8 bytes from place i on.
pub fn number_at(s: &[u8], i: usize) -> u64
    requires { i + 8 ≤ length s.now }
    ensures { result ≡ number_at s.now i }
{
    u64::from_be_bytes([
        s[i],
        s[i + 1],
        s[i + 2],
        s[i + 3],
        s[i + 4],
        s[i + 5],
        s[i + 6],
        s[i + 7],
    ])
}

// Copies bytes over as many. Not by copy_from_slice, for which the library would want memmove of whoever links it.
pub fn copy(from: &[u8], to: &mut [u8])
    requires { length from.now ≡ length to.old }
    ensures { to.new ≡ from.now }
{
    for i in 0..from.len() {
        to[i] = from[i];
    }
}

// Writes a number over the first 8 bytes.
fn put_number(to: &mut [u8], number: u64)
    requires { 8 ≤ length to.old }
    ensures { to.new ≡ over (bytes8 number) to.old }
{
    to[..8].copy_from_slice(&number.to_be_bytes());
}

// Writes two bytes and a number over the first ten.
fn put_head(to: &mut [u8], tag: u8, code: u8, number: u64)
    requires { 10 ≤ length to.old }
    ensures { to.new ≡ over (tag ∷ code ∷ bytes8 number) to.old }
{
    put_number(&mut to[2..], number);
    to[0] = tag;
    to[1] = code;
}

// Writes a number behind its label over the first nine bytes.
fn put_labelled(to: &mut [u8], given: Labelled)
    requires { 9 ≤ length to.old }
    ensures { to.new ≡ over (given.label ∷ bytes8 given.number) to.old }
{
    put_number(&mut to[1..], given.number);
    to[0] = given.label;
}

// A number that is given.
pub fn numbered(label: Label, number: u64) -> Labelled
    ensures { result ≡ record { label = label_number label; number = number } }
{
    Labelled {
        label: label as u8,
        number,
    }
}

// A number that is missing.
fn missing(label: Label) -> Labelled
    ensures { result ≡ record { label = missing_label + label_number label; number = 0 } }
{
    Labelled {
        label: MISSING + label as u8,
        number: 0,
    }
}

// The number of the deck's set.
#[tactic(auto, unfolding(format::specs::ShipText::set_number))]
fn deck_number(set: DeckSet) -> u64
    ensures { result ≡ set_number (set_of set) }
{
    set as u64
}

// The numbers that an outcome gives, at most three.
#[tactic(auto, unfolding(crate::specs::Labels::labelled_row, crate::specs::Labels::quantity_label, numbers::specs::Words::unsigned))]
pub fn given_by(outcome: Outcome) -> [Labelled; 3]
    ensures { result ≡ labelled_row 3 (givens_of outcome) }
{
    match outcome {
        Outcome::Nothing => [NONE, NONE, NONE],
        Outcome::Value(Some(value)) => {
            let number = numbers::unsigned_of(value.0);
            [numbered(Label::Value, number), NONE, NONE]
        }
        Outcome::Value(None) => [missing(Label::Value), NONE, NONE],
        Outcome::Flag(Some(value)) => [numbered(Label::Flag, u64::from(value)), NONE, NONE],
        Outcome::Flag(None) => [missing(Label::Flag), NONE, NONE],
        Outcome::Count(count) => [numbered(Label::Count, count as u64), NONE, NONE],
        Outcome::Nibbles(count) => [numbered(Label::Nibbles, u64::from(count)), NONE, NONE],
        Outcome::Text(count, set, nibbles) => [
            numbered(Label::Count, count as u64),
            numbered(Label::Deck, deck_number(set)),
            numbered(Label::Nibbles, u64::from(nibbles)),
        ],
    }
}

// Writes a refusal over the first 37 bytes of a log.
fn put_refusal(log: &mut [u8], refusal: Refusal)
    requires { 37 ≤ length log.old }
    ensures { log.new ≡ over (head_of (answer_of (Err refusal))) log.old }
{
    put_head(log, 0, refusal.number(), refusal.place() as u64);
    log[10..37].fill(0);
}

// Writes what an accepted call gives over the first 37 bytes of a log.
fn put_outcome(log: &mut [u8], outcome: Outcome)
    requires { 37 ≤ length log.old }
    ensures { log.new ≡ over (head_of (answer_of (Ok outcome))) log.old }
{
    let [first, second, third] = given_by(outcome);
    put_head(log, 1, 0, 0);
    put_labelled(&mut log[10..], first);
    put_labelled(&mut log[19..], second);
    put_labelled(&mut log[28..], third);
}

// Writes an answer over the first 37 bytes of a log.
pub fn put_reply(log: &mut [u8], reply: Reply)
    requires { 37 ≤ length log.old }
    ensures { log.new ≡ over (head_of (answer_of reply)) log.old }
{
    match reply {
        Err(refusal) => put_refusal(log, refusal),
        Ok(outcome) => put_outcome(log, outcome),
    }
}
