// The ship text for display: a reader that holds the slice of the report, and gives a symbol at each step.
#![tactic(auto)]

ghost use Rattle.std.specs.Prelude.{◌≡◌, [], ◌∷◌, ◌*◌, ◌≤◌, min, length};
ghost use Rattle.format.specs.Bits.{Bytes};
ghost use Rattle.format.specs.Calls as call;
ghost use Rattle.format.specs.Buffer.{after, effect};
ghost use Rattle.format.specs.Reply.{answer_of};
ghost use Rattle.report.specs.Found.{FoundBySome};
ghost use Rattle.text_display.specs.Reading.{Written};
ghost use Rattle.text_display.specs.Steps.{step_at, steps_left, numbers_of, Opens, OpensAlways};

use format::{FlagTable, Outcome, Refusal, Reply};
use report::Report;
use text_reader::Origin;

// The id of the ship text.
const SHIP_TEXT: usize = 4;

// The nibbles of an attachment's header.
const HEADER: usize = 3;

// The byte of a space.
const SPACE: u8 = 32;

// ---- the core, over a slice and numbers

// A symbol, by its byte and origin, with the place and the spaces after it.
#[derive(Clone, Copy, Debug, PartialEq, Eq)]
pub struct Step {
    pub byte: u8,
    pub origin: Origin,
    pub at: usize,
    pub spaces: usize,
}

// The place and the end of a reader that is opened, in nibbles; and its refusal, if it has one.
#[derive(Clone, Copy, Debug, PartialEq, Eq)]
pub struct Opening {
    pub at: usize,
    pub end: usize,
    pub refusal: Option<Refusal>,
}

// The end, or that of the slice where it is nearer.
fn nearer(report: &[u8], end: usize) -> usize
    ensures { result ≡ min end (2 * length report.now) }
{
    end.min(report.len() * 2)
}

// A step on any bytes, from any place, none at the end.
fn step_at(report: &[u8], at: usize, end: usize, spaces: usize) -> Option<Step>
    ensures { result ≡ step_at report.now at end spaces }
{
    if 0 < spaces {
        return Some(Step {
            byte: SPACE,
            origin: Origin::Plain,
            at,
            spaces: spaces - 1,
        });
    }
    let code = text_reader::code_at(report, at, nearer(report, end))?;
    Some(Step {
        byte: code.byte,
        origin: code.origin,
        at: at + code.nibbles,
        spaces: code.count - 1,
    })
}

// An opening that is refused.
fn refused(refusal: Refusal) -> Opening
    ensures { result ≡ numbers_of 0 0 (Some refusal) }
{
    Opening {
        at: 0,
        end: 0,
        refusal: Some(refusal),
    }
}

// Opens on a report that was inspected.
fn numbers_found(buffer: &[u8], report: Report) -> Opening
    requires { FoundBySome buffer.now 4 report }
    ensures { OpensAlways buffer.now result }
{
    let Some(held) = report.held else {
        return refused(Refusal::NoSuch);
    };
    Opening {
        at: held.place + HEADER,
        end: held.place + HEADER + held.al,
        refusal: None,
    }
}

// The numbers of a reader of the report's ship text.
fn numbers(buffer: &[u8], table: &FlagTable) -> Opening
    ensures { Opens table.now buffer.now result }
{
    match report::inspect(buffer, SHIP_TEXT, *table) {
        Err(refusal) => refused(refusal),
        Ok(report) => numbers_found(buffer, report),
    }
}

// ---- the reader

// It stands at a place in nibbles, with the body's end, and has so many spaces of a run still to give. Where opening was refused
// it has the refusal, and stands at its end.
#[derive(Clone, Copy, Debug, PartialEq, Eq)]
pub struct Reader<'a> {
    pub report: &'a [u8],
    pub at: usize,
    pub end: usize,
    pub spaces: usize,
    pub refusal: Option<Refusal>,
}

// It gives its steps, and is moved on by each.
impl<'a> Iterator for Reader<'a> {
    ghost use Rattle.std.specs.Iterator.{YieldsFirst, item_count};
    ghost use Rattle.text_display.specs.Steps.{steps_left};

    type Item = Step;

    ghost next_gives = { YieldsFirst steps_left };

    ghost remaining = { item_count steps_left };

    fn next(&mut self) -> Option<Step> {
        let step = step_at(self.report, self.at, self.end, self.spaces)?;
        self.at = step.at;
        self.spaces = step.spaces;
        Some(step)
    }
}

// Opens a reader of the report's ship text.
pub fn open<'a>(report: &'a [u8], table: &FlagTable) -> Reader<'a>
    ensures { (result.report ≡ report.entry) × (result.spaces ≡ 0)
        × Opens table.now report.now (numbers_of result.at result.end result.refusal) }
{
    let opening = numbers(report, table);
    Reader {
        report,
        at: opening.at,
        end: opening.end,
        spaces: 0,
        refusal: opening.refusal,
    }
}

// The next symbol, none at the end.
pub fn next<'a>(reader: Reader<'a>) -> Option<Step>
    ensures { result ≡ step_at reader.entry.report.now reader.entry.at reader.entry.end reader.entry.spaces }
{
    step_at(reader.report, reader.at, reader.end, reader.spaces)
}

// The reader behind a symbol, at the place and with the spaces that came with it.
pub fn moved<'a>(reader: Reader<'a>, at: usize, spaces: usize) -> Reader<'a>
    ensures { (result.report ≡ reader.entry.report) × (result.at ≡ at) × (result.end ≡ reader.entry.end) × (result.spaces ≡ spaces)
        × (result.refusal ≡ reader.entry.refusal) }
{
    Reader {
        at,
        spaces,
        ..reader
    }
}

// ---- with plain parameters

// A reader opened, and its numbers.
pub fn opened(buffer: &[u8], table: &FlagTable) -> Opening
    ensures { Opens table.now buffer.now result }
{
    let reader = open(buffer, table);
    Opening {
        at: reader.at,
        end: reader.end,
        refusal: reader.refusal,
    }
}

// A step of a reader with these numbers, whatever they are.
pub fn step_of(buffer: &[u8], at: usize, end: usize, spaces: usize) -> Option<Step>
    ensures { result ≡ step_at buffer.now at end spaces }
{
    next(Reader {
        report: buffer,
        at,
        end,
        spaces,
        refusal: None,
    })
}

// ---- read out

// Writes the bytes of the symbols that a reader has left, and their marks of origin.
fn write_out(reader: Reader, out: &mut [u8], origins: &mut [u8])
    requires { (length (steps_left reader) ≤ length out.old) × (length (steps_left reader) ≤ length origins.old) }
    ensures { Written (steps_left reader.entry) out.old origins.old out.new origins.new }
{
    for (place, step) in reader.enumerate() {
        let mark = step.origin.mark();
        out[place] = step.byte;
        origins[place] = mark;
    }
}

// Fetches the ship text by a reader: opened, read to its end to count the symbols, and read to its end once more.
pub fn read_out(buffer: &[u8], out: &mut [u8], origins: &mut [u8], table: &FlagTable) -> Reply
    ensures { after (answer_of result) buffer.now (out.new ∷ origins.new ∷ [])
        ≡ effect table.now buffer.now (call.fetches (call.fetch_text out.old origins.old)) }
{
    let reader = open(buffer, table);
    if let Some(refusal) = reader.refusal {
        return Err(refusal);
    }
    let count = reader.count();
    if out.len() < count {
        return Err(Refusal::Room);
    }
    if origins.len() < count {
        return Err(Refusal::Room);
    }
    write_out(reader, out, origins);
    let nibbles = (reader.end - reader.at) as u8;
    Ok(Outcome::Text(count, call_fetches::deck_set(buffer), nibbles))
}
