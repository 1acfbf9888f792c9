// The library for programs in C and other languages: each function of crate lmr5 under its own name, with its promise.
#![tactic(auto)]

ghost use Rattle.std.specs.Prelude.{◌≡◌, [], ◌∷◌};
ghost use Rattle.format.specs.Field.{scaled};
ghost use Rattle.format.specs.Report.{judge};
ghost use Rattle.format.specs.Calls as call;
ghost use Rattle.format.specs.Buffer.{effect};
ghost use Rattle.format.specs.Whole as spec;
ghost use Rattle.format.specs.Flags.{all_yes};
ghost use Rattle.format.specs.ShipText.{char_table};
ghost use Rattle.format.specs.Loading.{load_answer, in_force};
ghost use Rattle.format.specs.Finding.{find};
ghost use Rattle.format.specs.Costliest.{costliest_refusal, CostliestLeaves};
ghost use Rattle.characters.specs.Table.{ReadBack};
ghost use Rattle.flag_table.specs.Claims.{AnyValue};
ghost use Rattle.script.specs.Script.{Performs};
ghost use Rattle.lmr5.specs.Readers.{ReaderOpened, Stepped};
ghost use Rattle.lmr5.specs.Numbered.{numbered, left, numbered_after, judging, numbered_wrote, word, opening, numbered_unpacked};

use format::FlagTable;
use lmr5::{Answer, Performed, Symbol};

// ---- the table of permitted flags

#[unsafe(no_mangle)]
pub extern "C" fn lmr5_all_flags(table: &mut FlagTable)
    ensures { (table.new ≡ all_yes) × AnyValue table.new }
{
    lmr5::lmr5_all_flags(table);
}

#[unsafe(no_mangle)]
pub extern "C" fn lmr5_load_flags(marks: &[u8], table: &mut FlagTable) -> Answer
    ensures { (result ≡ numbered (load_answer marks.now)) × (table.new ≡ in_force table.old marks.now) }
{
    lmr5::lmr5_load_flags(marks, table)
}

// ---- whole reports

#[unsafe(no_mangle)]
pub extern "C" fn lmr5_judge(report: &[u8], table: &FlagTable) -> Answer
    ensures { result ≡ numbered (judging (judge table.now report.now)) }
{
    lmr5::lmr5_judge(report, table)
}

#[unsafe(no_mangle)]
pub extern "C" fn lmr5_fresh(
    box10: i64,
    year: i64,
    month: i64,
    x: i64,
    y: i64,
    out: &mut [u8],
) -> Answer
    ensures { record { answer = result; out = out.new } ≡ numbered_wrote (spec.fresh (scaled box10) (scaled year) (scaled month) (scaled x) (scaled y) out.old) }
{
    lmr5::lmr5_fresh(box10, year, month, x, y, out)
}

#[unsafe(no_mangle)]
pub extern "C" fn lmr5_unpack(
    report: &[u8],
    values: &mut [i64],
    tail: &mut [u8],
    contents: &mut [u64; 6],
    table: &FlagTable,
) -> Answer
    ensures { opening result values.new tail.new contents.new
        ≡ numbered_unpacked (spec.unpack table.now report.now values.old tail.old) contents.old }
{
    lmr5::lmr5_unpack(report, values, tail, contents, table)
}

#[unsafe(no_mangle)]
pub extern "C" fn lmr5_pack(
    values: &[i64],
    word: u64,
    rptin: u16,
    tail: &[u8],
    out: &mut [u8],
    table: &FlagTable,
) -> Answer
    ensures { record { answer = result; out = out.new } ≡ numbered_wrote (spec.pack table.now values.now word rptin tail.now out.old) }
{
    lmr5::lmr5_pack(values, word, rptin, tail, out, table)
}

// ---- fields and flags

#[unsafe(no_mangle)]
pub extern "C" fn lmr5_read_field(report: &[u8], field: usize, table: &FlagTable) -> Answer
    ensures { left result report.now [] ≡ numbered_after (effect table.now report.now (call.reads (call.read_field field))) }
{
    lmr5::lmr5_read_field(report, field, table)
}

#[unsafe(no_mangle)]
pub extern "C" fn lmr5_set_field(
    report: &mut [u8],
    field: usize,
    value: i64,
    table: &FlagTable,
) -> Answer
    ensures { left result report.new [] ≡ numbered_after (effect table.now report.old (call.edits (call.set_field field (scaled value)))) }
{
    lmr5::lmr5_set_field(report, field, value, table)
}

#[unsafe(no_mangle)]
pub extern "C" fn lmr5_clear_field(report: &mut [u8], field: usize, table: &FlagTable) -> Answer
    ensures { left result report.new [] ≡ numbered_after (effect table.now report.old (call.edits (call.clear_field field))) }
{
    lmr5::lmr5_clear_field(report, field, table)
}

#[unsafe(no_mangle)]
pub extern "C" fn lmr5_clear_with_indicators(
    report: &mut [u8],
    field: usize,
    table: &FlagTable,
) -> Answer
    ensures { left result report.new [] ≡ numbered_after (effect table.now report.old (call.edits (call.clear_with_indicators field))) }
{
    lmr5::lmr5_clear_with_indicators(report, field, table)
}

#[unsafe(no_mangle)]
pub extern "C" fn lmr5_find_indicators(report: &[u8], out: &mut [u8], table: &FlagTable) -> Answer
    ensures { record { answer = result; out = out.new } ≡ numbered_wrote (find table.now report.now out.old) }
{
    lmr5::lmr5_find_indicators(report, out, table)
}

#[unsafe(no_mangle)]
pub extern "C" fn lmr5_read_flag(report: &[u8], flag: usize, table: &FlagTable) -> Answer
    ensures { left result report.now [] ≡ numbered_after (effect table.now report.now (call.reads (call.read_flag flag))) }
{
    lmr5::lmr5_read_flag(report, flag, table)
}

#[unsafe(no_mangle)]
pub extern "C" fn lmr5_set_flag(
    report: &mut [u8],
    flag: usize,
    value: usize,
    table: &FlagTable,
) -> Answer
    ensures { left result report.new [] ≡ numbered_after (effect table.now report.old (call.edits (call.set_flag flag value))) }
{
    lmr5::lmr5_set_flag(report, flag, value, table)
}

#[unsafe(no_mangle)]
pub extern "C" fn lmr5_clear_flag(report: &mut [u8], flag: usize, table: &FlagTable) -> Answer
    ensures { left result report.new [] ≡ numbered_after (effect table.now report.old (call.edits (call.clear_flag flag))) }
{
    lmr5::lmr5_clear_flag(report, flag, table)
}

// ---- attachments and the ship text

#[unsafe(no_mangle)]
pub extern "C" fn lmr5_put(
    report: &mut [u8],
    id: usize,
    content: &[u8],
    table: &FlagTable,
) -> Answer
    ensures { left result report.new [] ≡ numbered_after (effect table.now report.old (call.edits (call.put id content.now))) }
{
    lmr5::lmr5_put(report, id, content, table)
}

#[unsafe(no_mangle)]
pub extern "C" fn lmr5_fetch(report: &[u8], id: usize, out: &mut [u8], table: &FlagTable) -> Answer
    ensures { left result report.now (out.new ∷ []) ≡ numbered_after (effect table.now report.now (call.fetches (call.fetch id out.old))) }
{
    lmr5::lmr5_fetch(report, id, out, table)
}

#[unsafe(no_mangle)]
pub extern "C" fn lmr5_drop(report: &mut [u8], id: usize, table: &FlagTable) -> Answer
    ensures { left result report.new [] ≡ numbered_after (effect table.now report.old (call.edits (call.remove id))) }
{
    lmr5::lmr5_drop(report, id, table)
}

#[unsafe(no_mangle)]
pub extern "C" fn lmr5_put_text(
    report: &mut [u8],
    text: &[u8],
    origins: &[u8],
    table: &FlagTable,
) -> Answer
    ensures { left result report.new []
        ≡ numbered_after (effect table.now report.old (call.edits (call.put_text text.now origins.now))) }
{
    lmr5::lmr5_put_text(report, text, origins, table)
}

#[unsafe(no_mangle)]
pub extern "C" fn lmr5_fetch_text(
    report: &[u8],
    text: &mut [u8],
    origins: &mut [u8],
    table: &FlagTable,
) -> Answer
    ensures { left result report.now (text.new ∷ origins.new ∷ [])
        ≡ numbered_after (effect table.now report.now (call.fetches (call.fetch_text text.old origins.old))) }
{
    lmr5::lmr5_fetch_text(report, text, origins, table)
}

#[unsafe(no_mangle)]
pub extern "C" fn lmr5_costliest_text(symbols: usize, text: &mut [u8], origins: &mut [u8]) -> Answer
    ensures { (result ≡ numbered (call.done_by (costliest_refusal symbols text.old origins.old)))
        × CostliestLeaves symbols text.old origins.old text.new origins.new }
{
    lmr5::lmr5_costliest_text(symbols, text, origins)
}

// ---- the reader of the ship text

#[unsafe(no_mangle)]
pub extern "C" fn lmr5_open_text(report: &[u8], reader: &mut [u64; 5], table: &FlagTable) -> Answer
    ensures { ReaderOpened table.now report.now reader.new result }
{
    lmr5::lmr5_open_text(report, reader, table)
}

#[unsafe(no_mangle)]
pub extern "C" fn lmr5_next_symbol(report: &[u8], reader: &mut [u64; 5]) -> Symbol
    ensures { Stepped report.now reader.old reader.new result }
{
    lmr5::lmr5_next_symbol(report, reader)
}

// ---- the table of the characters

#[unsafe(no_mangle)]
pub extern "C" fn lmr5_character_table(table: &mut [u16; 256])
    ensures { (table.new ≡ char_table) × ReadBack table.new }
{
    lmr5::lmr5_character_table(table);
}

// ---- a script of calls

#[unsafe(no_mangle)]
pub extern "C" fn lmr5_replay(
    report: &mut [u8],
    script: &[u8],
    log: &mut [u8],
    table: &FlagTable,
) -> Performed
    ensures { Performs table.now (record { buffer = report.new; log = log.new; calls = result.calls; taken = result.taken; written = result.written })
        report.old script.now log.old }
{
    lmr5::lmr5_replay(report, script, log, table)
}
