// The calls on flags of the report that a buffer begins with: read, set, clear. Each judges the report first.
#![tactic(auto)]

ghost use Rattle.std.specs.Prelude.{◌≡◌, [], ◌∷◌, ◌+◌, ◌-◌, ◌*◌, ◌≤◌, ◌<◌, ◌^◌, length, get_or, set};
ghost use Rattle.format.specs.Nibbles.{nibbles};
ghost use Rattle.format.specs.Calls.{reads, edits, read_flag, set_flag, clear_flag, flag_given};
ghost use Rattle.format.specs.Buffer.{after, effect, as_read};
ghost use Rattle.format.specs.Reply.{answer_of, givens_of};
ghost use Rattle.report.specs.Found.{Leaves, Found, FoundBySome};
ghost use Rattle.call_flags.specs.Flags.{flagged};

use format::{FlagTable, Outcome, Refusal, Reply};
use nibble::Cursor;
use report::Report;

// The id of the attachment that holds the flags.
const FLAGS: usize = 1;

// What a flag's nibble stands for: a value, or that it is missing.
#[tactic(auto, using(crate::proofs::Flags::told_missing, crate::proofs::Flags::told_flag))]
fn told(nibble: u8) -> Outcome
    ensures { givens_of result ≡ flag_given nibble ∷ [] }
{
    if nibble == 0 {
        return Outcome::Flag(None);
    }
    Outcome::Flag(Some(nibble))
}

// The value of a flag of an accepted report, in which the flags were looked for.
fn flag_of(buffer: &[u8], flag: usize, found: Report) -> Reply
    requires { FoundBySome buffer.now 1 found }
    ensures { Leaves buffer.now (reads (read_flag flag)) (after (answer_of result) buffer.now []) }
{
    if !numbers::within(1, 14, flag) {
        return Err(Refusal::Number);
    }
    let Some(held) = found.held else {
        return Err(Refusal::NoSuch);
    };
    Ok(told(nibble::packed_at(buffer, held.place + 3 + (flag - 1))))
}

// The value of a flag, or that it is missing.
pub fn read_flag(buffer: &[u8], flag: usize, table: &FlagTable) -> Reply
    ensures { after (answer_of result) buffer.now [] ≡ effect table.now buffer.now (reads (read_flag flag)) }
{
    let found = report::inspect(buffer, FLAGS, *table)?;
    flag_of(buffer, flag, found)
}

// Stores a value at a place, and gives the nibble that stood there.
fn exchange(buffer: &mut [u8], place: usize, value: u8) -> u8
    requires { (place < 2 * length buffer.old) × (place ≤ 2 ^ 32) × (value < 16) }
    ensures { (nibbles buffer.new ≡ set (nibbles buffer.old) place value) × (length buffer.new ≡ length buffer.old)
        × (result ≡ get_or (nibbles buffer.old) place 0) }
{
    let former = nibble::packed_at(buffer, place);
    nibble_edit::put(buffer, place, value);
    former
}

// Stores a flag of id 1 at a place, and the quality code of the fourteen. Gives what stood in the flag.
fn store_flag(buffer: &mut [u8], place: usize, flag: usize, value: usize) -> u8
    requires { (place + 19 ≤ 2 * length buffer.old) × (place + 19 ≤ 2 ^ 32) × (1 ≤ flag) × (flag ≤ 14) × (value < 16) }
    ensures { (nibbles buffer.new ≡ flagged (nibbles buffer.old) (place + 3) flag value) × (length buffer.new ≡ length buffer.old)
        × (result ≡ get_or (nibbles buffer.old) (place + 3 + (flag - 1)) 0) }
{
    let at = place + 3;
    let former = exchange(buffer, at + (flag - 1), value as u8);
    let quality = flags::quality(buffer, Cursor { at, packed: true });
    nibble_edit::put(buffer, at + 14, quality / 16);
    nibble_edit::put(buffer, at + 15, quality % 16);
    former
}

// Sets a flag of an accepted report, in which the flags were looked for.
fn set_flag_of(
    buffer: &mut [u8],
    flag: usize,
    value: usize,
    found: Report,
    table: &FlagTable,
) -> Reply
    requires { Found table.now buffer.old 1 found }
    ensures { after (answer_of result) buffer.new [] ≡ effect table.now buffer.old (edits (set_flag flag value)) }
{
    if !numbers::within(1, 14, flag) {
        return Err(Refusal::Number);
    }
    if !flags::in_range(flag, value, *table) {
        return Err(Refusal::Value(flag));
    }
    let Some(held) = found.held else {
        return Err(Refusal::NoSuch);
    };
    Ok(told(store_flag(buffer, held.place, flag, value)))
}

// Sets a flag to a value, and the quality code, and tells what stood in the flag.
pub fn set_flag(buffer: &mut [u8], flag: usize, value: usize, table: &FlagTable) -> Reply
    ensures { (after (answer_of result) buffer.new [] ≡ effect table.now buffer.old (edits (set_flag flag value)))
        × (answer_of result ≡ as_read table.now buffer.old (read_flag flag) (answer_of result)) }
{
    let found = report::inspect(buffer, FLAGS, *table)?;
    set_flag_of(buffer, flag, value, found, table)
}

// Clears a flag of an accepted report, in which the flags were looked for.
fn clear_flag_of(buffer: &mut [u8], flag: usize, found: Report) -> Reply
    requires { FoundBySome buffer.old 1 found }
    ensures { Leaves buffer.old (edits (clear_flag flag)) (after (answer_of result) buffer.new []) }
{
    if !numbers::within(1, 14, flag) {
        return Err(Refusal::Number);
    }
    let Some(held) = found.held else {
        return Err(Refusal::NoSuch);
    };
    Ok(told(store_flag(buffer, held.place, flag, 0)))
}

// Makes a flag missing, and sets the quality code, and tells what stood in the flag.
pub fn clear_flag(buffer: &mut [u8], flag: usize, table: &FlagTable) -> Reply
    ensures { (after (answer_of result) buffer.new [] ≡ effect table.now buffer.old (edits (clear_flag flag)))
        × (answer_of result ≡ as_read table.now buffer.old (read_flag flag) (answer_of result)) }
{
    let found = report::inspect(buffer, FLAGS, *table)?;
    clear_flag_of(buffer, flag, found)
}
