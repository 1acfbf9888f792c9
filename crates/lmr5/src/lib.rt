// The calls for programs in C and other languages, over slices. Each is one call of the crates below; crate lmr5_c exports them.
#![tactic(auto)]

ghost use Rattle.std.specs.Prelude.{ℕ, ◌<◌, ◌^◌, ◌≡◌, [], ◌∷◌, Ok};
ghost use Rattle.format.specs.Field.{scaled};
ghost use Rattle.format.specs.Report.{judge};
ghost use Rattle.format.specs.Calls as call;
ghost use Rattle.format.specs.Buffer.{effect};
ghost use Rattle.format.specs.Whole as spec;
ghost use Rattle.format.specs.Reply.{refusal_of, answer_of};
ghost use Rattle.format.specs.Flags.{all_yes};
ghost use Rattle.format.specs.ShipText.{char_table};
ghost use Rattle.format.specs.Loading.{load_answer, in_force};
ghost use Rattle.format.specs.Finding.{find};
ghost use Rattle.format.specs.Costliest.{costliest_refusal, CostliestLeaves};
ghost use Rattle.laws.proofs.Bounds.{AnswerFits};
ghost use Rattle.fresh.specs.Answers.{fresh_answer};
ghost use Rattle.pack.specs.Answers.{pack_answer};
ghost use Rattle.text_display.specs.Steps.{number_of, place_of, refusal_in};
ghost use Rattle.characters.specs.Table.{ReadBack};
ghost use Rattle.flag_table.specs.Claims.{AnyValue};
ghost use Rattle.script.specs.Script.{Performs};
ghost use Rattle.lmr5.specs.Readers.{ReaderOpened, Stepped};
ghost use Rattle.lmr5.specs.Numbered.{numbered, told, left, numbered_after, judging, numbered_wrote, opening, numbered_unpacked};

use format::{FlagTable, Refusal, Reply, Scaled};
use script::{Label, Labelled, NONE};

// `Answer`, `Performed` and `Symbol`, and the numbers of unpacked contents and of a reader, are the C interface (include/lmr5.h).

// What a call answers: the refusal's number and place, both 0 where it is accepted; the labels of the numbers that it gives, the
// first in the lowest byte, 0 where it gives none; and the numbers, 0 where one is missing or not given.
#[repr(C)]
#[derive(Clone, Copy)]
pub struct Answer {
    pub refusal: u32,
    pub given: u32,
    pub place: u64,
    pub first: i64,
    pub second: i64,
    pub third: i64,
}

// How many calls of a script were performed, and how many bytes of script and log they took.
#[repr(C)]
#[derive(Clone, Copy)]
pub struct Performed {
    pub calls: u64,
    pub taken: u64,
    pub written: u64,
}

fn refused(refusal: Refusal) -> Answer
    ensures { result ≡ numbered (call.refused (refusal_of refusal)) }
{
    Answer {
        refusal: u32::from(refusal.number()),
        given: 0,
        place: refusal.place() as u64,
        first: 0,
        second: 0,
        third: 0,
    }
}

// A row of numbers with their labels.
fn accepted(row: [Labelled; 3]) -> Answer
    ensures { result ≡ told row }
{
    let [first, second, third] = row;
    Answer {
        refusal: 0,
        given: u32::from_le_bytes([first.label, second.label, third.label, 0]),
        place: 0,
        first: numbers::signed_of(first.number),
        second: numbers::signed_of(second.number),
        third: numbers::signed_of(third.number),
    }
}

#[tactic(auto, unfolding(script::specs::Labels::labels, numbers::specs::Words::signed))]
fn done() -> Answer
    ensures { result ≡ numbered (call.accepted []) }
{
    accepted([NONE, NONE, NONE])
}

fn done_or(done_or_not: Result<(), Refusal>) -> Answer
    ensures { result ≡ numbered (fresh_answer done_or_not) }
{
    match done_or_not {
        Err(refusal) => refused(refusal),
        Ok(()) => done(),
    }
}

// A size in bytes.
fn sized(size: Result<usize, Refusal>) -> Answer
    requires { (n : ℕ) → size ≡ Ok n → n < 2 ^ 63 }
    ensures { result ≡ numbered (pack_answer size) }
{
    match size {
        Err(refusal) => refused(refusal),
        Ok(size) => accepted([script::numbered(Label::Bytes, size as u64), NONE, NONE]),
    }
}

fn answer_of(reply: Reply) -> Answer
    requires { AnswerFits (answer_of reply) }
    ensures { result ≡ numbered (answer_of reply) }
{
    match reply {
        Err(refusal) => refused(refusal),
        Ok(outcome) => accepted(script::given_by(outcome)),
    }
}

// ---- the table of permitted flags

pub fn lmr5_all_flags(table: &mut FlagTable)
    ensures { (table.new ≡ all_yes) × AnyValue table.new }
{
    *table = flag_table::all_yes();
}

pub fn lmr5_load_flags(marks: &[u8], table: &mut FlagTable) -> Answer
    ensures { (result ≡ numbered (load_answer marks.now)) × (table.new ≡ in_force table.old marks.now) }
{
    *table = flag_table::load(marks, *table);
    done_or(flag_table::judge(marks))
}

// ---- whole reports

pub fn lmr5_judge(report: &[u8], table: &FlagTable) -> Answer
    ensures { result ≡ numbered (judging (judge table.now report.now)) }
{
    sized(report::judge(&*report, *table))
}

pub fn lmr5_fresh(box10: i64, year: i64, month: i64, x: i64, y: i64, out: &mut [u8]) -> Answer
    ensures { record { answer = result; out = out.new } ≡ numbered_wrote (spec.fresh (scaled box10) (scaled year) (scaled month) (scaled x) (scaled y) out.old) }
{
    done_or(fresh::fresh(
        Scaled(box10),
        Scaled(year),
        Scaled(month),
        Scaled(x),
        Scaled(y),
        out,
    ))
}

// The contents are what unpacking gives beside the values and the tail: the presence word, fields present, RPTIN, AC, the size in
// bytes, the tail in nibbles.
pub fn lmr5_unpack(
    report: &[u8],
    values: &mut [i64],
    tail: &mut [u8],
    contents: &mut [u64; 6],
    table: &FlagTable,
) -> Answer
    ensures { opening result values.new tail.new contents.new
        ≡ numbered_unpacked (spec.unpack table.now report.now values.old tail.old) contents.old }
{
    match unpack::unpack(&*report, values, tail, table) {
        Err(refusal) => refused(refusal),
        Ok(given) => {
            *contents = [
                given.word,
                u64::from(given.present),
                u64::from(given.rptin),
                given.attachments as u64,
                given.bytes as u64,
                given.nibbles as u64,
            ];
            done()
        }
    }
}

pub fn lmr5_pack(
    values: &[i64],
    word: u64,
    rptin: u16,
    tail: &[u8],
    out: &mut [u8],
    table: &FlagTable,
) -> Answer
    ensures { record { answer = result; out = out.new } ≡ numbered_wrote (spec.pack table.now values.now word rptin tail.now out.old) }
{
    sized(pack::pack(values, word, rptin, tail, out, table))
}

// ---- fields and flags

pub fn lmr5_read_field(report: &[u8], field: usize, table: &FlagTable) -> Answer
    ensures { left result report.now [] ≡ numbered_after (effect table.now report.now (call.reads (call.read_field field))) }
{
    answer_of(call_fields::read_field(&*report, field, table))
}

pub fn lmr5_set_field(report: &mut [u8], field: usize, value: i64, table: &FlagTable) -> Answer
    ensures { left result report.new [] ≡ numbered_after (effect table.now report.old (call.edits (call.set_field field (scaled value)))) }
{
    answer_of(call_fields::set_field(report, field, Scaled(value), table))
}

pub fn lmr5_clear_field(report: &mut [u8], field: usize, table: &FlagTable) -> Answer
    ensures { left result report.new [] ≡ numbered_after (effect table.now report.old (call.edits (call.clear_field field))) }
{
    answer_of(call_fields::clear_field(report, field, table))
}

pub fn lmr5_clear_with_indicators(report: &mut [u8], field: usize, table: &FlagTable) -> Answer
    ensures { left result report.new [] ≡ numbered_after (effect table.now report.old (call.edits (call.clear_with_indicators field))) }
{
    answer_of(call_indicators::clear(report, field, table))
}

pub fn lmr5_find_indicators(report: &[u8], out: &mut [u8], table: &FlagTable) -> Answer
    ensures { record { answer = result; out = out.new } ≡ numbered_wrote (find table.now report.now out.old) }
{
    answer_of(call_indicators::find(&*report, out, table))
}

pub fn lmr5_read_flag(report: &[u8], flag: usize, table: &FlagTable) -> Answer
    ensures { left result report.now [] ≡ numbered_after (effect table.now report.now (call.reads (call.read_flag flag))) }
{
    answer_of(call_flags::read_flag(&*report, flag, table))
}

pub fn lmr5_set_flag(report: &mut [u8], flag: usize, value: usize, table: &FlagTable) -> Answer
    ensures { left result report.new [] ≡ numbered_after (effect table.now report.old (call.edits (call.set_flag flag value))) }
{
    answer_of(call_flags::set_flag(report, flag, value, table))
}

pub fn lmr5_clear_flag(report: &mut [u8], flag: usize, table: &FlagTable) -> Answer
    ensures { left result report.new [] ≡ numbered_after (effect table.now report.old (call.edits (call.clear_flag flag))) }
{
    answer_of(call_flags::clear_flag(report, flag, table))
}

// ---- attachments and the ship text

pub fn lmr5_put(report: &mut [u8], id: usize, content: &[u8], table: &FlagTable) -> Answer
    ensures { left result report.new [] ≡ numbered_after (effect table.now report.old (call.edits (call.put id content.now))) }
{
    answer_of(call_puts::put(report, id, content, table))
}

pub fn lmr5_fetch(report: &[u8], id: usize, out: &mut [u8], table: &FlagTable) -> Answer
    ensures { left result report.now (out.new ∷ []) ≡ numbered_after (effect table.now report.now (call.fetches (call.fetch id out.old))) }
{
    answer_of(call_fetches::fetch(&*report, id, out, table))
}

pub fn lmr5_drop(report: &mut [u8], id: usize, table: &FlagTable) -> Answer
    ensures { left result report.new [] ≡ numbered_after (effect table.now report.old (call.edits (call.remove id))) }
{
    answer_of(call_attachments::remove(report, id, table))
}

pub fn lmr5_put_text(report: &mut [u8], text: &[u8], origins: &[u8], table: &FlagTable) -> Answer
    ensures { left result report.new []
        ≡ numbered_after (effect table.now report.old (call.edits (call.put_text text.now origins.now))) }
{
    answer_of(call_puts::put_text(report, text, origins, table))
}

pub fn lmr5_fetch_text(
    report: &[u8],
    text: &mut [u8],
    origins: &mut [u8],
    table: &FlagTable,
) -> Answer
    ensures { left result report.now (text.new ∷ origins.new ∷ [])
        ≡ numbered_after (effect table.now report.now (call.fetches (call.fetch_text text.old origins.old))) }
{
    answer_of(call_fetches::fetch_text(&*report, text, origins, table))
}

pub fn lmr5_costliest_text(symbols: usize, text: &mut [u8], origins: &mut [u8]) -> Answer
    ensures { (result ≡ numbered (call.done_by (costliest_refusal symbols text.old origins.old)))
        × CostliestLeaves symbols text.old origins.old text.new origins.new }
{
    answer_of(text_cost::costliest(symbols, text, origins))
}

// ---- the reader of the ship text

// A step's symbol: 0 at the end, 1 plain, 2 original; and its byte, 0 at the end.
#[repr(C)]
#[derive(Clone, Copy)]
pub struct Symbol {
    pub kind: u32,
    pub byte: u32,
}

// The number and the place of a refusal, 0 where there is none.
fn refusal_numbers(refusal: Option<Refusal>) -> (u64, u64)
    ensures { (result.0 ≡ number_of (refusal_in refusal)) × (result.1 ≡ place_of (refusal_in refusal)) }
{
    match refusal {
        Some(refusal) => (u64::from(refusal.number()), refusal.place() as u64),
        None => (0, 0),
    }
}

pub fn lmr5_open_text(report: &[u8], reader: &mut [u64; 5], table: &FlagTable) -> Answer
    ensures { ReaderOpened table.now report.now reader.new result }
{
    let opening = text_display::opened(report, table);
    let (number, place) = refusal_numbers(opening.refusal);
    *reader = [opening.at as u64, opening.end as u64, 0, number, place];
    match opening.refusal {
        Some(refusal) => refused(refusal),
        None => done(),
    }
}

// A step of a reader with these numbers, whatever they are, on any bytes.
pub fn lmr5_next_symbol(report: &[u8], reader: &mut [u64; 5]) -> Symbol
    ensures { Stepped report.now reader.old reader.new result }
{
    let [at, end, spaces, ..] = *reader;
    match text_display::step_of(report, at as usize, end as usize, spaces as usize) {
        None => Symbol { kind: 0, byte: 0 },
        Some(step) => {
            reader[0] = step.at as u64;
            reader[2] = step.spaces as u64;
            Symbol {
                kind: u32::from(step.origin.mark()) + 1,
                byte: u32::from(step.byte),
            }
        }
    }
}

// ---- the table of the characters

pub fn lmr5_character_table(table: &mut [u16; 256])
    ensures { (table.new ≡ char_table) × ReadBack table.new }
{
    characters::generate(table);
}

// ---- a script of calls

pub fn lmr5_replay(report: &mut [u8], script: &[u8], log: &mut [u8], table: &FlagTable) -> Performed
    ensures { Performs table.now (record { buffer = report.new; log = log.new; calls = result.calls; taken = result.taken; written = result.written })
        report.old script.now log.old }
{
    let p = replay::replay(report, script, log, table);
    Performed {
        calls: p.calls as u64,
        taken: p.taken as u64,
        written: p.written as u64,
    }
}
