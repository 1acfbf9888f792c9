// Unpacks a report to its values and its tail.
#![tactic(auto)]

ghost use Rattle.std.specs.Prelude.{◌≡◌};
ghost use Rattle.format.specs.Whole.{unpacked};
ghost use Rattle.format.specs.Whole as spec;
ghost use Rattle.unpack.specs.Answers.{unpack_answer, Unpacks};
ghost use Rattle.report.specs.Found.{FoundBySome};

use format::{FlagTable, Refusal};
use report::Report;

// The nibbles of the card: the tail begins behind them.
const CARD: usize = 75;

// What unpacking gives beside the values and the tail: the presence word, how many fields are present, RPTIN, AC, the
// report's size in bytes, and the tail's length in nibbles.
#[derive(Clone, Copy, Debug, PartialEq, Eq)]
pub struct Contents {
    pub word: u64,
    pub present: u32,
    pub rptin: u16,
    pub attachments: usize,
    pub bytes: usize,
    pub nibbles: usize,
}

// Gives what an accepted report holds, as judging it found, if the outputs are long enough.
fn give(
    buffer: &[u8],
    report: Report,
    values: &mut [i64],
    tail: &mut [u8],
) -> Result<Contents, Refusal>
    requires { FoundBySome buffer.now 0 report }
    ensures { Unpacks buffer.now values.old tail.old (unpacked (unpack_answer result) values.new tail.new) }
{
    let nibbles = report.end - CARD;
    if values.len() < 46 || tail.len() < nibbles {
        return Err(Refusal::Room);
    }
    let presence = read_values::show(buffer, values);
    nibble_copy::fetch(buffer, CARD, nibbles, tail);
    Ok(Contents {
        word: presence,
        present: presence.count_ones(),
        rptin: card::rptin(buffer),
        attachments: report.count,
        bytes: report.end / 2 + report.end % 2,
        nibbles,
    })
}

// A report's values, 0 where missing, to the first 46 of values, and its tail, one nibble a byte, to the front of tail.
pub fn unpack(
    buffer: &[u8],
    values: &mut [i64],
    tail: &mut [u8],
    table: &FlagTable,
) -> Result<Contents, Refusal>
    ensures { unpacked (unpack_answer result) values.new tail.new ≡ spec.unpack table.now buffer.now values.old tail.old }
{
    let report = report::inspect(buffer, 0, *table)?;
    give(buffer, report, values, tail)
}
