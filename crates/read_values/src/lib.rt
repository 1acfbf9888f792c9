// The values of a whole card and their presence word, shown. The 46 fields stand in straight lines, each with its row.
#![tactic(auto)]

ghost use Rattle.std.specs.Prelude.{◌≡◌, cond, map, ◌≤◌, ◌<◌, ◌^◌, length};
ghost use Rattle.format.specs.Field.{table, field_at, entry_of, is_present, entries};
ghost use Rattle.format.specs.Report.{codes_of};
ghost use Rattle.format.specs.Calls.{over};
ghost use Rattle.format.specs.Whole.{value_or_zero, presence_from};
ghost use Rattle.card.specs.Rows.{RowAt, RowRun};
ghost use Rattle.read_values.specs.Values.{ValuesRead};

use card::{
    A, A6, BI, BOX10, C, CD, CH, CL, CM, D, DAY, DC, DI, DPT, DS, Field, H, HI, HOUR, MONTH, NH, P,
    PB, PW, QI, S, SD, SH, SID, SP, ST, TC, TI, VB, VI, W, W1, W2, WB, WD, WH, WI, WP, X, XYI, Y,
    YEAR,
};
use format::Coded;

// The values of a card.
type Values = [i64; 46];

// What unpacking shows of a coded number of a field: the scaled value, 0 where it is missing.
fn value_or_zero(field: Field, code: Coded) -> i64
    ensures { result ≡ value_or_zero (entry_of (field_at field.number) code) }
{
    if code.0 == 0 {
        return 0;
    }
    field.scaled(code).0
}

// The bit of a field in the presence word, if its coded number is present.
fn presence_bit(field: Field, code: Coded) -> u64
    ensures { result ≡ cond (is_present (entry_of (field_at field.number) code)) (2 ^ field.number) 0 }
{
    if code.0 == 0 {
        return 0;
    }
    1 << field.number
}

// Shows the field at place i: writes its value, and adds its bit to the presence word.
fn show_field(word: u64, buffer: &[u8], values: &mut Values, i: usize, row: u64) -> u64
    requires { (38 ≤ length buffer.now) × (word < 2305843009213693952) × RowAt i row }
    ensures { ValuesRead buffer.now i 1 values.old values.new word result }
{
    let field = Field::of_row(i, row);
    let code = field.code(buffer);
    values[i] = value_or_zero(field, code);
    word + presence_bit(field, code)
}

// The same of N fields from place i on, few enough that the compiler makes straight lines of the loop. The runs of write_values stay
// apart, since they fold other things: this one writes to an output and adds bits, refuse_run only counts.
#[inline(always)]
fn show_run<const N: usize>(
    word: u64,
    buffer: &[u8],
    values: &mut Values,
    i: usize,
    rows: [u64; N],
) -> u64
    requires { (38 ≤ length buffer.now) × (word < 1152921504606846976) × RowRun i N rows }
    ensures { ValuesRead buffer.now i N values.old values.new word result }
{
    let mut sum = word;
    for j in 0..N {
        sum = show_field(sum, buffer, values, i + j, rows[j]);
    }
    sum
}

// Writes the 46 scaled values, 0 where missing, to the front of out, and gives the presence word.
pub fn show(buffer: &[u8], out: &mut [i64]) -> u64
    requires { (38 ≤ length buffer.now) × (46 ≤ length out.old) }
    ensures { (out.new ≡ over (map value_or_zero (entries table (codes_of buffer.now))) out.old) × (result ≡ presence_from 1 (entries table (codes_of buffer.now))) }
{
    let values: &mut Values = out.first_chunk_mut().unwrap();
    let rows = [BOX10, YEAR, MONTH, DAY, HOUR, X, Y, XYI, CD, SID];
    let word = show_run(0, buffer, values, 0, rows);
    let rows = [ST, QI, DS, DC, TC, PB, DI, D, WI, W];
    let word = show_run(word, buffer, values, 10, rows);
    let rows = [VI, VB, PW, W1, W2, P, TI, A, WB, DPT];
    let word = show_run(word, buffer, values, 20, rows);
    let rows = [S, BI, C, NH, CL, HI, H, CM, CH, WD];
    let word = show_run(word, buffer, values, 30, rows);
    let rows = [WP, WH, SD, SP, SH, A6];
    show_run(word, buffer, values, 40, rows)
}
