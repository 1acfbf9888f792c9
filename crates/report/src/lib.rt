// A report judged under a table of permitted flags: its length, fields, checksum, attachments and padding nibble, in one walk.
#![tactic(auto)]

ghost use Rattle.std.specs.Prelude.{◌≡◌, true, ◌*◌, ◌≤◌, ◌^◌, length};
ghost use Rattle.format.specs.Report.{judge};
ghost use Rattle.format.specs.Reply.{by_number};
ghost use Rattle.report.specs.Answers.{judged_of, Sizes, Front, FrontPasses, inspected, last_of, comparison};

use format::{FlagTable, Refusal};
use nibble::Cursor;
use tail::Held;

// What an accepted report shows on the way: AC, its end in nibbles, and where the id asked for stands, if it does.
#[derive(Clone, Copy, Debug, PartialEq, Eq)]
pub struct Report {
    pub count: usize,
    pub end: usize,
    pub held: Option<Held>,
}

// The length, the fields and the checksum.
fn front(buffer: &[u8]) -> Result<(), Refusal>
    ensures { Front buffer.now result }
{
    if buffer.len() < 38 {
        return Err(Refusal::Short(0));
    }
    let sum = checks::check(buffer)?;
    if card::checksum(buffer) != sum {
        return Err(Refusal::Checksum);
    }
    Ok(())
}

// Judges the padding nibble, which has to be 0.
fn last(buffer: &[u8], report: Report) -> Result<Report, Refusal>
    requires { (report.end ≤ 2 * length buffer.now) × (report.end ≤ 2 ^ 32) }
    ensures { by_number result ≡ last_of buffer.now report }
{
    let padding = Cursor {
        at: report.end,
        packed: true,
    };
    if report.end % 2 == 1 {
        if let Some((nibble, _)) = padding.nibble(buffer) {
            if nibble != 0 {
                return Err(Refusal::Padding);
            }
        }
    }
    Ok(report)
}

// The attachments and the last nibble.
fn inspect_tail(buffer: &[u8], want: usize, table: &FlagTable) -> Result<Report, Refusal>
    requires { FrontPasses buffer.now }
    ensures { by_number result ≡ inspected table.now buffer.now want }
{
    let count = card::count(buffer);
    let start = Cursor {
        at: 75,
        packed: true,
    };
    let tail = tail::walk(buffer, start, count, want, table)?;
    let report = Report {
        count,
        end: tail.end,
        held: tail.held,
    };
    last(buffer, report)
}

// Judges the report, and says where id `want` stands in it. A card alone is not walked. Inlined, so that what it answers need not go
// through memory.
#[inline(always)]
pub fn inspect(buffer: &[u8], want: usize, table: FlagTable) -> Result<Report, Refusal>
    ensures { by_number result ≡ inspected table buffer.now want }
{
    front(buffer)?;
    if buffer[37] == 0 {
        return Ok(Report {
            count: 0,
            end: 75,
            held: None,
        });
    }
    inspect_tail(buffer, want, &table)
}

// Judges the report that a buffer begins with, and gives its size in bytes. Not over `inspect`: as `front` has two callers
// it is not inlined into `inspect`, which is then small enough to be inlined into its callers, and what both answer stays
// in registers.
pub fn judge(buffer: &[u8], table: FlagTable) -> Result<usize, Refusal>
    ensures { (by_number result ≡ judged_of (judge table buffer.now)) × Sizes table result }
{
    front(buffer)?;
    if buffer[37] == 0 {
        return Ok(38);
    }
    let report = inspect_tail(buffer, 0, &table)?;
    Ok(report.end / 2 + report.end % 2)
}

// Whether the reports that two buffers begin with are equal byte for byte, which they are exactly when their observations are.
#[tactic(auto, using(crate::proofs::Observations::within_buffer))]
pub fn same(a: &[u8], b: &[u8], table: &FlagTable) -> Result<bool, Refusal>
    ensures { comparison table.now result a.now b.now }
{
    let first = judge(a, *table)?;
    let second = judge(b, *table)?;
    Ok(a[..first] == b[..second])
}
