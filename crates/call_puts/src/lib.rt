// The calls that put to the report that a buffer begins with: a content, the ship text. Each judges the report first, then
// what is put.
#![tactic(auto)]

ghost use Rattle.std.specs.Prelude.{◌≡◌, ◌&&◌, [], ◌≤◌, length};
ghost use Rattle.format.specs.Report.{body_valid};
ghost use Rattle.format.specs.Calls.{all_nibbles};
ghost use Rattle.format.specs.Calls as call;
ghost use Rattle.format.specs.Buffer.{after, effect};
ghost use Rattle.format.specs.ShipText.{symbols_in};
ghost use Rattle.format.specs.Costliest.{Never12};
ghost use Rattle.format.specs.Reply.{answer_of, CountsId4};
ghost use Rattle.report.specs.Found.{Found, FoundBySome, Leaves};

use format::{FlagTable, Outcome, Refusal, Reply};
use nibble::Cursor;
use report::Report;

// The highest id of an attachment, and the id of the ship text.
const LAST_ID: usize = 15;

const SHIP_TEXT: usize = 4;

// The most nibbles of a content.
const LONGEST: usize = 255;

// ---- a content

// Whether these bytes may stand under an id.
#[tactic(auto, using(laws::proofs::Attachments::all_nibbles_lem))]
fn content_valid(id: usize, content: &[u8], table: &FlagTable) -> bool
    requires { length content.now ≤ 255 }
    ensures { result ≡ all_nibbles content.now && body_valid table.now id content.now }
{
    let start = Cursor {
        at: 0,
        packed: false,
    };
    nibble::all_nibbles(content) && tail::body_valid(content, start, id, content.len(), table)
}

// Puts to a report that was inspected.
fn put_found(
    buffer: &mut [u8],
    id: usize,
    report: Report,
    content: &[u8],
    table: &FlagTable,
) -> Reply
    requires { Found table.now buffer.old id report }
    ensures { after (answer_of result) buffer.new [] ≡ effect table.now buffer.old (call.edits (call.put id content.now)) }
{
    if !(1..=LAST_ID).contains(&id) {
        return Err(Refusal::Number);
    }
    if !(1..=LONGEST).contains(&content.len()) {
        return Err(Refusal::Length);
    }
    if !content_valid(id, content, table) {
        return Err(Refusal::Content);
    }
    call_attachments::put_nibbles(buffer, id, report, content)?;
    Ok(Outcome::Nothing)
}

// Replaces the content of an id, or appends the attachment.
pub fn put(buffer: &mut [u8], id: usize, content: &[u8], table: &FlagTable) -> Reply
    ensures { after (answer_of result) buffer.new [] ≡ effect table.now buffer.old (call.edits (call.put id content.now)) }
{
    let report = report::inspect(buffer, id, *table)?;
    put_found(buffer, id, report, content, table)
}

// ---- the ship text

// Puts the ship text to a report that was inspected.
fn put_text_found(buffer: &mut [u8], report: Report, text: &[u8], origins: &[u8]) -> Reply
    requires { FoundBySome buffer.old 4 report }
    ensures { Leaves buffer.old (call.edits (call.put_text text.now origins.now)) (after (answer_of result) buffer.new []) }
{
    if text.len() != origins.len() {
        return Err(Refusal::Room);
    }
    let mut nibbles = [0; LONGEST];
    let count = text_writer::write(text, origins, &mut nibbles)?;
    if count == 0 {
        return Err(Refusal::Length);
    }
    call_attachments::put_nibbles(buffer, SHIP_TEXT, report, &nibbles[..count])?;
    Ok(Outcome::Nibbles(count as u8))
}

// Puts the ship text: bytes, and for each a mark of origin, 0 plain and 1 original. Gives how many nibbles it takes.
pub fn put_text(buffer: &mut [u8], text: &[u8], origins: &[u8], table: &FlagTable) -> Reply
    ensures { (after (answer_of result) buffer.new []
        ≡ effect table.now buffer.old (call.edits (call.put_text text.now origins.now)))
        × CountsId4 result buffer.new × Never12 (symbols_in text.now origins.now) (answer_of result) }
{
    let report = report::inspect(buffer, SHIP_TEXT, *table)?;
    put_text_found(buffer, report, text, origins)
}
