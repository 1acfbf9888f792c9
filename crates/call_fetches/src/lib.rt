// The calls that fetch from the report that a buffer begins with: the nibbles of an attachment, the ship text. Each judges
// the report first.
#![tactic(auto)]

ghost use Rattle.std.specs.Prelude.{◌≡◌, [], ◌∷◌};
ghost use Rattle.format.specs.ShipText.{set_of_source, deck_set};
ghost use Rattle.format.specs.Report.{observation_of};
ghost use Rattle.format.specs.Calls as call;
ghost use Rattle.format.specs.Buffer.{after, effect};
ghost use Rattle.format.specs.Reply.{answer_of, set_of, CountsId4};
ghost use Rattle.report.specs.Found.{AcceptedBySome, FoundBySome, Leaves};

use card::Field;
use format::{DeckSet, FlagTable, Outcome, Refusal, Reply};
use report::Report;
use text_reader::Body;

// The highest id of an attachment, and the id of the ship text.
const LAST_ID: usize = 15;

const SHIP_TEXT: usize = 4;

// The nibbles of an attachment's header.
const HEADER: usize = 3;

// The field of the source ID.
const SID: usize = 10;

// Fetches from a report that was inspected.
#[tactic(auto, using(laws::proofs::Results::bytes_in, report::proofs::Found::reach))]
fn fetch_found(buffer: &[u8], id: usize, report: Report, out: &mut [u8]) -> Reply
    requires { FoundBySome buffer.now id report }
    ensures { Leaves buffer.now (call.fetches (call.fetch id out.old)) (after (answer_of result) buffer.now (out.new ∷ [])) }
{
    if !(1..=LAST_ID).contains(&id) {
        return Err(Refusal::Number);
    }
    let Some(held) = report.held else {
        return Err(Refusal::NoSuch);
    };
    if out.len() < held.al {
        return Err(Refusal::Room);
    }
    nibble_copy::fetch(buffer, held.place + HEADER, held.al, out);
    Ok(Outcome::Count(held.al))
}

// Writes the nibbles of an id to the front of out, one a byte.
pub fn fetch(buffer: &[u8], id: usize, out: &mut [u8], table: &FlagTable) -> Reply
    ensures { after (answer_of result) buffer.now (out.new ∷ []) ≡ effect table.now buffer.now (call.fetches (call.fetch id out.old)) }
{
    let report = report::inspect(buffer, id, *table)?;
    fetch_found(buffer, id, report, out)
}

// ---- the ship text

// The deck's set, by the source ID.
#[tactic(auto, using(crate::proofs::Fetches::source_low, crate::proofs::Fetches::source_high, crate::proofs::Fetches::source_four, crate::proofs::Fetches::source_eighteen, crate::proofs::Fetches::source_zero, crate::proofs::Fetches::source_between, crate::proofs::Fetches::source_beyond))]
fn source_set(source: usize) -> DeckSet
    ensures { set_of result ≡ set_of_source source }
{
    match source {
        1..=3 | 5..=17 | 19..=21 | 23..=24 => DeckSet::Ebcdic,
        4 | 18 => DeckSet::Ascii,
        _ => DeckSet::Unknown,
    }
}

// The deck's set of an accepted report, by its scaled SID.
pub fn deck_set(buffer: &[u8]) -> DeckSet
    requires { AcceptedBySome buffer.now }
    ensures { set_of result ≡ deck_set (call.value_at (observation_of buffer.now) 10) }
{
    let field = Field::at(SID);
    let code = field.code(buffer);
    if card::is_missing(code) {
        return DeckSet::Unknown;
    }
    let source = field.scaled(code);
    source_set(numbers::unsigned_of(source.0) as usize)
}

// Fetches the ship text from a report that was inspected.
#[tactic(auto, using(laws::proofs::Results::bytes_in, report::proofs::Found::reach, crate::proofs::Fetches::body_byte))]
fn fetch_text_found(buffer: &[u8], report: Report, out: &mut [u8], origins: &mut [u8]) -> Reply
    requires { FoundBySome buffer.now 4 report }
    ensures { Leaves buffer.now (call.fetches (call.fetch_text out.old origins.old))
        (after (answer_of result) buffer.now (out.new ∷ origins.new ∷ [])) }
{
    let Some(held) = report.held else {
        return Err(Refusal::NoSuch);
    };
    let body = Body {
        report: buffer,
        at: held.place + HEADER,
        len: held.al,
    };
    let room = out.len().min(origins.len());
    if !body.fits(room) {
        return Err(Refusal::Room);
    }
    let count = body.read(out, origins);
    Ok(Outcome::Text(count, deck_set(buffer), held.al as u8))
}

// Writes the bytes of the ship text's symbols to the front of out, and their marks of origin to that of origins. Gives how many
// symbols and how many nibbles they are, and the deck's set.
pub fn fetch_text(buffer: &[u8], out: &mut [u8], origins: &mut [u8], table: &FlagTable) -> Reply
    ensures { (after (answer_of result) buffer.now (out.new ∷ origins.new ∷ [])
        ≡ effect table.now buffer.now (call.fetches (call.fetch_text out.old origins.old))) × CountsId4 result buffer.now }
{
    let report = report::inspect(buffer, SHIP_TEXT, *table)?;
    fetch_text_found(buffer, report, out, origins)
}
