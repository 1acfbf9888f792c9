// The two round trips of running code: pack after unpack, and unpack after pack, each under one table of permitted flags. A
// refused trip changes nothing.
#![tactic(auto)]

ghost use Rattle.std.specs.Prelude.{◌≡◌, cond, ◌||◌, ltb};
ghost use Rattle.unpack.specs.Answers.{unpack_answer};
ghost use Rattle.pack.specs.Answers.{pack_answer};
ghost use Rattle.trips.specs.Trips.{trip, restored, recovered, Holds};

use format::{FlagTable, Refusal};
use unpack::Contents;

// Unpacks a report and packs what was given, to an output that holds the report.
fn restore_to(
    buffer: &[u8],
    values: &mut [i64],
    tail: &mut [u8],
    out: &mut [u8],
    table: &FlagTable,
) -> Result<usize, Refusal>
    requires { Holds table.now out.old buffer.now }
    ensures { trip (pack_answer result) values.new tail.new out.new
        ≡ restored table.now buffer.now values.old tail.old out.old }
{
    let given = unpack::unpack(buffer, values, tail, table)?;
    pack::pack(
        values,
        given.word,
        given.rptin,
        &tail[..given.nibbles],
        out,
        table,
    )
}

// Unpacks a report and packs what was given: the report comes back byte for byte.
#[tactic(auto, using(crate::proofs::Trips::report_refused, crate::proofs::Trips::report_holds))]
pub fn restore(
    buffer: &[u8],
    values: &mut [i64],
    tail: &mut [u8],
    out: &mut [u8],
    table: &FlagTable,
) -> Result<usize, Refusal>
    ensures { trip (pack_answer result) values.new tail.new out.new
        ≡ restored table.now buffer.now values.old tail.old out.old }
{
    let size = report::judge(buffer, *table)?;
    if out.len() < size {
        return Err(Refusal::Room);
    }
    restore_to(buffer, values, tail, out, table)
}

// How much of an output pack is lent: nothing where the outputs of unpack are too short, so that pack refuses, by one of its
// refusals before 13, or by 13.
fn room(values: usize, tail_out: usize, tail: usize, out: usize) -> usize
    ensures { result ≡ cond (ltb values 46 || ltb tail_out tail) 0 out }
{
    if values < 46 || tail_out < tail {
        0
    } else {
        out
    }
}

// Packs to out and unpacks from there: what was packed comes back.
pub fn recover(
    values: &[i64],
    word: u64,
    rptin: u16,
    tail: &[u8],
    out: &mut [u8],
    values_out: &mut [i64],
    tail_out: &mut [u8],
    table: &FlagTable,
) -> Result<Contents, Refusal>
    ensures { trip (unpack_answer result) values_out.new tail_out.new out.new
        ≡ recovered table.now values.now word rptin tail.now out.old values_out.old tail_out.old }
{
    let lent = room(values_out.len(), tail_out.len(), tail.len(), out.len());
    pack::pack(values, word, rptin, tail, &mut out[..lent], table)?;
    unpack::unpack(out, values_out, tail_out, table)
}
