// The values that a caller gives with a presence word: refused, and written to a card. The 46 fields stand in straight lines,
// each with its row.
#![tactic(auto)]

ghost use Rattle.std.specs.Prelude.{◌≡◌, [], ◌∷◌, ◌++◌, ◌-◌, ◌≤◌, ◌<◌, length, eqb};
ghost use Rattle.std.proofs.Math.Option.{none};
ghost use Rattle.format.specs.Bits.{total};
ghost use Rattle.format.specs.Field.{field_at, table};
ghost use Rattle.format.specs.Order.{first};
ghost use Rattle.format.specs.Observation.{checksum};
ghost use Rattle.format.specs.Reply.{by_number};
ghost use Rattle.format.specs.Report.{numbers_of};
ghost use Rattle.format.specs.Whole.{bit_at, pack_checks};
ghost use Rattle.card.specs.Answers.{Carded};
ghost use Rattle.card.specs.Rows.{RowAt, RowRun};
ghost use Rattle.card.specs.Runs.{sum_run, Summed};
ghost use Rattle.write_values.specs.Lent.{codes_given, code_given, fielded, CodesWritten, given_check, check_at, refusal_at, fault_at};

use card::{
    A, A6, BI, BOX10, C, CD, CH, CL, CM, D, DAY, DC, DI, DPT, DS, Field, H, HI, HOUR, MONTH, NH, P,
    PB, PW, QI, S, SD, SH, SID, SP, ST, TC, TI, VB, VI, W, W1, W2, WB, WD, WH, WI, WP, X, XYI, Y,
    YEAR,
};
use format::{Coded, Refusal, Scaled};

// The values that a caller lends, with a presence word: 46, and what stands behind them is not read.
#[derive(Clone, Copy)]
pub struct Lent<'a> {
    pub values: &'a [i64],
    pub word: u64,
    pub ghost long: { 46 ≤ length values.now },
}

// Those of which no field is refused.
#[derive(Clone, Copy)]
pub struct Passed<'a> {
    pub lent: Lent<'a>,
    pub ghost fair: { first (pack_checks 1 table lent.word lent.values.now) ≡ none },
}

// ---- refused

// Whether a field is present by a presence word.
fn holds(word: u64, field: Field) -> bool
    ensures { result ≡ bit_at word field.number }
{
    (word >> field.number) % 2 == 1
}

// Refuses a field by a presence word and a value: required and absent, or out of range.
pub fn refusal(field: Field, word: u64, value: i64) -> Result<(), Refusal>
    ensures { by_number result ≡ given_check field.number word value }
{
    if !holds(word, field) {
        if field.is_required() {
            return Err(Refusal::Required(field.number));
        }
        return Ok(());
    }
    match field.coded(Scaled(value)) {
        None => Err(Refusal::Value(field.number)),
        Some(_) => Ok(()),
    }
}

impl Lent<'_> {
    // Refuses a field.
    #[tactic(auto, using(crate::proofs::Tests::check_number))]
    pub fn refusal(self, field: Field) -> Result<(), Refusal>
        ensures { by_number result ≡ check_at self.entry.values.now self.entry.word (field.number - 1) }
    {
        refusal(field, self.word, self.values[field.number - 1])
    }

    // A sum, and the number of the refusal of the field at place i.
    fn refuse(self, sum: u64, i: usize, row: u64) -> u64
        requires { (sum < 65536) × RowAt i row }
        ensures { Summed (refusal_at self.entry.values.now self.entry.word) 10 i 1 sum result }
    {
        match self.refusal(Field::of_row(i, row)) {
            Ok(()) => sum,
            Err(refusal) => sum + u64::from(refusal.number()),
        }
    }

    // The same of N fields from place i on, few enough that the compiler makes straight lines of the loop. It only counts, where
    // show_run of read_values writes to an output and adds bits: they fold other things, and stay apart.
    #[inline(always)]
    fn refuse_run<const N: usize>(self, sum: u64, i: usize, rows: [u64; N]) -> u64
        requires { (sum < 32768) × RowRun i N rows }
        ensures { Summed (refusal_at self.entry.values.now self.entry.word) 10 i N sum result }
    {
        let mut total = sum;
        for j in 0..N {
            total = self.refuse(total, i + j, rows[j]);
        }
        total
    }

    // The sum of all refusals: 0 where no field is refused.
    pub fn refusals(self) -> u64
        ensures { result ≡ sum_run (refusal_at self.entry.values.now self.entry.word) 0 46 }
    {
        let rows = [BOX10, YEAR, MONTH, DAY, HOUR, X, Y, XYI, CD, SID];
        let sum = self.refuse_run(0, 0, rows);
        let rows = [ST, QI, DS, DC, TC, PB, DI, D, WI, W];
        let sum = self.refuse_run(sum, 10, rows);
        let rows = [VI, VB, PW, W1, W2, P, TI, A, WB, DPT];
        let sum = self.refuse_run(sum, 20, rows);
        let rows = [S, BI, C, NH, CL, HI, H, CM, CH, WD];
        let sum = self.refuse_run(sum, 30, rows);
        let rows = [WP, WH, SD, SP, SH, A6];
        self.refuse_run(sum, 40, rows)
    }

    // Whether no field is refused.
    pub fn all_pass(self) -> bool
        ensures { result ≡ eqb (sum_run (fault_at self.entry.values.now self.entry.word) 0 46) 0 }
    {
        self.refusals() == 0
    }
}

// ---- written

impl Passed<'_> {
    // The coded number of a field.
    fn code(self, field: Field) -> Coded
        ensures { (result.0 ≡ code_given self.entry.lent.values.now self.entry.lent.word (field.number - 1)) × (result.0 ≤ (field_at field.number).highest) }
    {
        if !holds(self.lent.word, field) {
            return Coded(0);
        }
        let value = self.lent.values[field.number - 1];
        field.coded(Scaled(value)).unwrap_or(Coded(0))
    }

    // Writes the field at place i, and adds its coded number to a sum.
    fn write_field(self, sum: u64, buffer: &mut [u8], i: usize, row: u64) -> u64
        requires { (38 ≤ length buffer.old) × (sum < 4294967296) × RowAt i row }
        ensures { CodesWritten self.entry.lent.values.now self.entry.lent.word i 1 buffer.old buffer.new sum result }
    {
        let field = Field::of_row(i, row);
        let code = self.code(field);
        field.store(buffer, code);
        sum + code.0 as u64
    }

    // The same of N fields from place i on, few enough that the compiler makes straight lines of the loop: of ten
    // it does not, and their rows would be read from the stack.
    #[inline(always)]
    fn write_run<const N: usize>(self, sum: u64, buffer: &mut [u8], i: usize, rows: [u64; N]) -> u64
        requires { (38 ≤ length buffer.old) × (sum < 2147483648) × RowRun i N rows }
        ensures { CodesWritten self.entry.lent.values.now self.entry.lent.word i N buffer.old buffer.new sum result }
    {
        let mut total = sum;
        for j in 0..N {
            total = self.write_field(total, buffer, i + j, rows[j]);
        }
        total
    }

    // Writes the first 24 coded fields, and gives their sum.
    fn write_front(self, buffer: &mut [u8]) -> u64
        requires { 38 ≤ length buffer.old }
        ensures { CodesWritten self.entry.lent.values.now self.entry.lent.word 0 24 buffer.old buffer.new 0 result }
    {
        let sum = self.write_run(0, buffer, 0, [BOX10, YEAR]);
        let sum = self.write_run(sum, buffer, 2, [MONTH, DAY]);
        let sum = self.write_run(sum, buffer, 4, [HOUR, X]);
        let sum = self.write_run(sum, buffer, 6, [Y, XYI]);
        let sum = self.write_run(sum, buffer, 8, [CD, SID]);
        let sum = self.write_run(sum, buffer, 10, [ST, QI]);
        let sum = self.write_run(sum, buffer, 12, [DS, DC]);
        let sum = self.write_run(sum, buffer, 14, [TC, PB]);
        let sum = self.write_run(sum, buffer, 16, [DI, D]);
        let sum = self.write_run(sum, buffer, 18, [WI, W]);
        let sum = self.write_run(sum, buffer, 20, [VI, VB]);
        self.write_run(sum, buffer, 22, [PW, W1])
    }

    // Writes the coded fields, and gives their sum.
    fn write_fields(self, buffer: &mut [u8]) -> u64
        requires { 38 ≤ length buffer.old }
        ensures { Carded buffer.old buffer.new (fielded (numbers_of buffer.old) (codes_given self.entry.lent.values.now self.entry.lent.word) 46)
            × (result ≡ total (codes_given self.entry.lent.values.now self.entry.lent.word)) }
    {
        let sum = self.write_front(buffer);
        let sum = self.write_run(sum, buffer, 24, [W2, P]);
        let sum = self.write_run(sum, buffer, 26, [TI, A]);
        let sum = self.write_run(sum, buffer, 28, [WB, DPT]);
        let sum = self.write_run(sum, buffer, 30, [S, BI]);
        let sum = self.write_run(sum, buffer, 32, [C, NH]);
        let sum = self.write_run(sum, buffer, 34, [CL, HI]);
        let sum = self.write_run(sum, buffer, 36, [H, CM]);
        let sum = self.write_run(sum, buffer, 38, [CH, WD]);
        let sum = self.write_run(sum, buffer, 40, [WP, WH]);
        let sum = self.write_run(sum, buffer, 42, [SD, SP]);
        self.write_run(sum, buffer, 44, [SH, A6])
    }

    // Writes a card: RPTIN, the fields that are present, their checksum, and the number of attachments.
    pub fn write(self, buffer: &mut [u8], rptin: u16, count: usize)
        requires { (38 ≤ length buffer.old) × (count < 16) }
        ensures { Carded buffer.old buffer.new (rptin ∷ (codes_given self.entry.lent.values.now self.entry.lent.word
            ++ (checksum (codes_given self.entry.lent.values.now self.entry.lent.word) ∷ count ∷ []))) }
    {
        let sum = self.write_fields(buffer);
        card::set_checksum(buffer, sum);
        card::set_count(buffer, count);
        card::set_rptin(buffer, rptin);
    }
}
