// Indicators and the data that they rest on: those that have lost their data, found; a field cleared with its indicators. Each call
// judges the report first.
#![tactic(auto)]

ghost use Rattle.std.specs.Prelude.{◌≡◌, false, cond, not, ◌&&◌, [], ◌∷◌, ◌++◌, ◌+◌, ◌-◌, ◌*◌, ◌≤◌, ◌<◌, ◌^◌, length, get_or};
ghost use Rattle.format.specs.Field.{required, is_present};
ghost use Rattle.format.specs.Observation.{card_numbers};
ghost use Rattle.format.specs.Report.{codes_of, observation_of};
ghost use Rattle.format.specs.Calls.{edits, read_field, clear_with_indicators, value_at, data_missing, lost_on, made, over};
ghost use Rattle.format.specs.Buffer.{after, effect, as_read};
ghost use Rattle.format.specs.Reply.{answer_of};
ghost use Rattle.format.specs.Finding as spec;
ghost use Rattle.format.specs.Finding.{lost_indicators, Ascends, AsClears};
ghost use Rattle.card.specs.Answers.{Carded};
ghost use Rattle.report.specs.Found.{AcceptedBySome, FoundBySome, Leaves};
ghost use Rattle.call_indicators.specs.Lists.{listed};
ghost use Rattle.call_indicators.specs.Emptied.{Emptied, lost_tI};
ghost use Rattle.call_indicators.specs.Finds.{Finds};

use card::Field;
use format::{Coded, FlagTable, Outcome, Refusal, Reply};
use report::Report;

// The indicators.
const DI: usize = 17;

const WI: usize = 19;

const VI: usize = 21;

const TI: usize = 27;

const BI: usize = 32;

const HI: usize = 36;

// The data that they rest on.
const D: usize = 18;

const W: usize = 20;

const VB: usize = 22;

const A: usize = 28;

const WB: usize = 29;

const DPT: usize = 30;

const S: usize = 31;

const H: usize = 37;

// The id of the attachment beside which no indicator is found.
const HIDING: usize = 5;

// Whether a field is missing.
#[tactic(auto, using(crate::proofs::Cards::missing_is))]
fn missing(buffer: &[u8], field: Field) -> bool
    requires { 38 ≤ length buffer.now }
    ensures { result ≡ not (is_present (value_at (observation_of buffer.now) field.number)) }
{
    card::is_missing(field.code(buffer))
}

// Whether the data of TI are all missing: A, WB, DPT and S.
#[tactic(auto, unfolding(format::specs::Calls::data_missing))]
fn temperatures_missing(buffer: &[u8]) -> bool
    requires { 38 ≤ length buffer.now }
    ensures { result ≡ data_missing (observation_of buffer.now) (28 ∷ 29 ∷ 30 ∷ 31 ∷ []) }
{
    missing(buffer, Field::at(A))
        & missing(buffer, Field::at(WB))
        & missing(buffer, Field::at(DPT))
        & missing(buffer, Field::at(S))
}

// ---- the indicators that have lost their data

// Whether an indicator is present and the field on which it rests is missing.
// By numbers, as take_out: Field::at(DI), Field::at(D) at each of the calls would say no more than DI, D, and be longer.
#[tactic(auto, unfolding(format::specs::Calls::data_missing))]
fn without(buffer: &[u8], indicator: usize, number: usize) -> bool
    requires { (38 ≤ length buffer.now) × (1 ≤ indicator) × (indicator ≤ 46) × (1 ≤ number) × (number ≤ 46) }
    ensures { result ≡ is_present (value_at (observation_of buffer.now) indicator) && data_missing (observation_of buffer.now) (number ∷ []) }
{
    !missing(buffer, Field::at(indicator)) & missing(buffer, Field::at(number))
}

// The same of TI.
fn without_temperatures(buffer: &[u8]) -> bool
    requires { 38 ≤ length buffer.now }
    ensures { result ≡ is_present (value_at (observation_of buffer.now) 27) && data_missing (observation_of buffer.now) (28 ∷ 29 ∷ 30 ∷ 31 ∷ []) }
{
    !missing(buffer, Field::at(TI)) & temperatures_missing(buffer)
}

// The fields of indicators that were found, of six that there are.
#[derive(Clone, Copy)]
pub struct Lost {
    fields: [u8; 6],
    count: usize,
}

impl Lost {
    fn none() -> Lost
        ensures { (listed result ≡ []) × (result.count ≡ 0) }
    {
        Lost {
            fields: [0; 6],
            count: 0,
        }
    }

    // Puts an indicator behind those that were found, if it is found too.
    fn and(mut self, indicator: usize, is_lost: bool) -> Lost
        requires { (self.count ≤ 5) × (indicator < 256) }
        ensures { (listed result ≡ listed self ++ cond is_lost (indicator ∷ []) []) × (result.count ≤ self.count + 1) }
    {
        if !is_lost {
            return self;
        }
        self.fields[self.count] = indicator as u8;
        self.count += 1;
        self
    }
}

// The indicators of a card that have lost their data.
fn lost_indicators(buffer: &[u8]) -> Lost
    requires { 38 ≤ length buffer.now }
    ensures { (listed result ≡ lost_indicators (observation_of buffer.now)) × (result.count ≤ 6) }
{
    Lost::none()
        .and(DI, without(buffer, DI, D))
        .and(WI, without(buffer, WI, W))
        .and(VI, without(buffer, VI, VB))
        .and(TI, without_temperatures(buffer))
        .and(BI, without(buffer, BI, S))
        .and(HI, without(buffer, HI, H))
}

// Finds them in an accepted report, in which attachment 5 was looked for.
fn find_in(buffer: &[u8], found: Report, out: &mut [u8]) -> Reply
    requires { FoundBySome buffer.now 5 found }
    ensures { Finds buffer.now out.old (record { answer = answer_of result; out = out.new }) }
{
    if found.held.is_some() {
        return Ok(Outcome::Count(0));
    }
    let lost = lost_indicators(buffer);
    if out.len() < lost.count {
        return Err(Refusal::Room);
    }
    out[..lost.count].copy_from_slice(&lost.fields[..lost.count]);
    Ok(Outcome::Count(lost.count))
}

// Writes the fields of the indicators that are present and whose data are all missing to the front of out, a byte each, and gives
// their number. Where attachment 5 stands there are none.
pub fn find(buffer: &[u8], out: &mut [u8], table: &FlagTable) -> Reply
    ensures { (record { answer = answer_of result; out = out.new } ≡ spec.find table.now buffer.now out.old)
        × Ascends (record { answer = answer_of result; out = out.new }) }
{
    let found = report::inspect(buffer, HIDING, *table)?;
    find_in(buffer, found, out)
}

// ---- a field cleared with its indicators

// Makes a field missing, and gives the code that stood there. The checksum stays.
fn take_out(buffer: &mut [u8], number: usize) -> u64
    requires { (38 ≤ length buffer.old) × (1 ≤ number) × (number ≤ 46) }
    ensures { Emptied buffer.old buffer.new (number ∷ []) result }
{
    let former = call_fields::exchange(buffer, Field::at(number), Coded(0));
    former.0 as u64
}

// The same of TI, if its data are all missing.
fn take_temperature(buffer: &mut [u8]) -> u64
    requires { 38 ≤ length buffer.old }
    ensures { Emptied buffer.old buffer.new (lost_tI (observation_of buffer.old)) result }
{
    if temperatures_missing(buffer) {
        return take_out(buffer, TI);
    }
    0
}

// A field is missing. Makes each indicator missing that rests on it and has no data left, and gives the sum of their codes.
fn take_indicators(buffer: &mut [u8], number: usize) -> u64
    requires { (38 ≤ length buffer.old) × (is_present (value_at (observation_of buffer.old) number) ≡ false) }
    ensures { Emptied buffer.old buffer.new (lost_on (observation_of buffer.old) number) result × (result ≤ 131070) }
{
    match number {
        D => take_out(buffer, DI),
        W => take_out(buffer, WI),
        VB => take_out(buffer, VI),
        A | WB | DPT => take_temperature(buffer),
        S => take_temperature(buffer) + take_out(buffer, BI),
        H => take_out(buffer, HI),
        _ => 0,
    }
}

// Clears a field with its indicators. Gives the code that stood in the field.
fn empty(buffer: &mut [u8], field: Field) -> Coded
    requires { AcceptedBySome buffer.old × (required field.number ≡ false) }
    ensures { Carded buffer.old buffer.new (card_numbers (made (observation_of buffer.old) (clear_with_indicators field.number))) × (result.0 ≡ get_or (codes_of buffer.old) (field.number - 1) 0) }
{
    let sum = card::checksum(buffer);
    let former = call_fields::exchange(buffer, field, Coded(0));
    let more = take_indicators(buffer, field.number);
    // 196605 is a multiple of 255, and three codes together are never above it
    card::set_checksum(buffer, sum + 196605 - former.0 as u64 - more);
    former
}

// Clears a field of an accepted report with its indicators.
fn clear_of(buffer: &mut [u8], number: usize) -> Reply
    requires { AcceptedBySome buffer.old }
    ensures { Leaves buffer.old (edits (clear_with_indicators number)) (after (answer_of result) buffer.new []) }
{
    let field = Field::numbered(number)?;
    if field.is_required() {
        return Err(Refusal::Required(field.number));
    }
    Ok(Outcome::Value(call_fields::value_of(field, empty(buffer, field))))
}

// Makes a field missing, and each indicator that rests on it and has then no data left. Tells what stood in the field.
pub fn clear(buffer: &mut [u8], number: usize, table: &FlagTable) -> Reply
    ensures { (after (answer_of result) buffer.new [] ≡ effect table.now buffer.old (edits (clear_with_indicators number)))
        × (answer_of result ≡ as_read table.now buffer.old (read_field number) (answer_of result))
        × AsClears table.now buffer.old number (answer_of result) buffer.new }
{
    report::inspect(buffer, 0, *table)?;
    clear_of(buffer, number)
}
