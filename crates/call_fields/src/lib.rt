// The calls on fields of the report that a buffer begins with: read, set, clear. Each judges the report first.
#![tactic(auto)]

ghost use Rattle.std.specs.Prelude.{◌≡◌, [], ◌∷◌, ◌-◌, ◌≤◌, length, get_or, set};
ghost use Rattle.format.specs.Field.{field_at, entry_of};
ghost use Rattle.format.specs.Report.{numbers_of, codes_of};
ghost use Rattle.format.specs.Calls.{reads, edits, read_field, set_field, clear_field, value_given};
ghost use Rattle.format.specs.Buffer.{after, effect, as_read};
ghost use Rattle.format.specs.Reply.{answer_of, givens_of};
ghost use Rattle.card.specs.Answers.{Carded};
ghost use Rattle.card.specs.Rows.{field_in};
ghost use Rattle.report.specs.Found.{AcceptedBySome, Leaves};
ghost use Rattle.call_fields.specs.Replaced.{replaced};

use card::Field;
use format::{Coded, FlagTable, Outcome, Refusal, Reply, Scaled};

// The value that a coded number stands for in the field that a row is of, none where it is that of a missing field.
#[tactic(auto, using(crate::proofs::Values::value_missing, crate::proofs::Values::value_there))]
pub fn value_in(row: u64, code: Coded) -> Option<Scaled>
    ensures { givens_of (Outcome.Value result) ≡ value_given (entry_of (field_in row) code) ∷ [] }
{
    if card::is_missing(code) {
        return None;
    }
    Some(card::scaled_in(row, code))
}

// The same in a field.
pub fn value_of(field: Field, code: Coded) -> Option<Scaled>
    ensures { givens_of (Outcome.Value result) ≡ value_given (entry_of (field_at field.number) code) ∷ [] }
{
    value_in(field.row(), code)
}

// The value of a field of an accepted report.
fn field_of(buffer: &[u8], number: usize) -> Reply
    requires { AcceptedBySome buffer.now }
    ensures { Leaves buffer.now (reads (read_field number)) (after (answer_of result) buffer.now []) }
{
    let field = Field::numbered(number)?;
    let code = field.code(buffer);
    Ok(Outcome::Value(value_of(field, code)))
}

// The value of a field, or that it is missing.
pub fn read_field(buffer: &[u8], number: usize, table: &FlagTable) -> Reply
    ensures { after (answer_of result) buffer.now [] ≡ effect table.now buffer.now (reads (read_field number)) }
{
    report::inspect(buffer, 0, *table)?;
    field_of(buffer, number)
}

// Stores a code in a field, and leaves the checksum. Gives the code that stood there.
pub fn exchange(buffer: &mut [u8], field: Field, code: Coded) -> Coded
    requires { (38 ≤ length buffer.old) × (code.0 ≤ (field_at field.number).highest) }
    ensures { Carded buffer.old buffer.new (set (numbers_of buffer.old) field.number code.0) × (result.0 ≡ get_or (codes_of buffer.old) (field.number - 1) 0) }
{
    let former = field.code(buffer);
    field.store(buffer, code);
    former
}

// Stores a code in a field of an accepted report, and sets the checksum. Gives the code that stood there.
fn replace(buffer: &mut [u8], field: Field, code: Coded) -> Coded
    requires { AcceptedBySome buffer.old × (code.0 ≤ (field_at field.number).highest) }
    ensures { Carded buffer.old buffer.new (replaced buffer.old field.number code.0) × (result.0 ≡ get_or (codes_of buffer.old) (field.number - 1) 0) }
{
    let sum = card::checksum(buffer);
    let former = exchange(buffer, field, code);
    // 65535 is a multiple of 255, and no code is above it
    card::set_checksum(buffer, sum + 65535 - former.0 as u64 + code.0 as u64);
    former
}

// Sets a field of an accepted report.
fn set_field_of(buffer: &mut [u8], number: usize, value: Scaled) -> Reply
    requires { AcceptedBySome buffer.old }
    ensures { Leaves buffer.old (edits (set_field number value)) (after (answer_of result) buffer.new []) }
{
    let field = Field::numbered(number)?;
    let code = field.coded(value).ok_or(Refusal::Value(field.number))?;
    let former = replace(buffer, field, code);
    Ok(Outcome::Value(value_of(field, former)))
}

// Sets a field to a value, and tells what stood there.
pub fn set_field(buffer: &mut [u8], number: usize, value: Scaled, table: &FlagTable) -> Reply
    ensures { (after (answer_of result) buffer.new [] ≡ effect table.now buffer.old (edits (set_field number value)))
        × (answer_of result ≡ as_read table.now buffer.old (read_field number) (answer_of result)) }
{
    report::inspect(buffer, 0, *table)?;
    set_field_of(buffer, number, value)
}

// Clears a field of an accepted report.
fn clear_field_of(buffer: &mut [u8], number: usize) -> Reply
    requires { AcceptedBySome buffer.old }
    ensures { Leaves buffer.old (edits (clear_field number)) (after (answer_of result) buffer.new []) }
{
    let field = Field::numbered(number)?;
    if field.is_required() {
        return Err(Refusal::Required(field.number));
    }
    Ok(Outcome::Value(value_of(field, replace(buffer, field, Coded(0)))))
}

// Makes a field missing, and tells what stood there.
pub fn clear_field(buffer: &mut [u8], number: usize, table: &FlagTable) -> Reply
    ensures { (after (answer_of result) buffer.new [] ≡ effect table.now buffer.old (edits (clear_field number)))
        × (answer_of result ≡ as_read table.now buffer.old (read_field number) (answer_of result)) }
{
    report::inspect(buffer, 0, *table)?;
    clear_field_of(buffer, number)
}
