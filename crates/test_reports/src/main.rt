// Runs the calls outside the list over vectors of the independent implementation.
#![tactic(auto)]

ghost use Rattle.std.specs.Prelude.{◌≡◌};
ghost use Rattle.test_reports.specs.FirstThree.{stands_behind, InTurn};

use format::{FlagTable, Refusal, Reply, Scaled};
use std::io;
use text_display::Step;
use unpack::Contents;

// The most bytes that a vector gives of a report, of a tail's nibbles, and of the symbols of a text.
const REPORT: usize = 2000;

const TAIL: usize = 4200;

const SYMBOLS: usize = 2400;

// The most values that a vector gives.
const VALUES: usize = 60;

// The most bytes of the smaller buffers.
const SMALL: usize = 200;

// What a vector asks for.
#[derive(Clone, Copy, Debug, PartialEq, Eq)]
enum Kind {
    Judge,
    List,
    Fresh,
    Unpack,
    Pack,
    Same,
    Restore,
    Recover,
    Characters,
    Load,
    Read,
    Costliest,
    Find,
    Steps,
}

// The byte that a vector begins with names no kind.
#[derive(Clone, Copy, Debug, PartialEq, Eq)]
struct NoKind;

impl TryFrom<u8> for Kind {
    type Error = NoKind;

    fn try_from(byte: u8) -> Result<Kind, NoKind> {
        Ok(match byte {
            1 => Kind::Judge,
            2 => Kind::List,
            3 => Kind::Fresh,
            4 => Kind::Unpack,
            5 => Kind::Pack,
            6 => Kind::Same,
            7 => Kind::Restore,
            8 => Kind::Recover,
            9 => Kind::Characters,
            10 => Kind::Load,
            11 => Kind::Read,
            12 => Kind::Costliest,
            13 => Kind::Find,
            14 => Kind::Steps,
            _ => return Err(NoKind),
        })
    }
}

fn judge(rt: &HostRuntime, table: &FlagTable) -> io::Result<()> {
    let mut report = [0u8; REPORT];
    let report = test_io::get_buffer(rt, &mut report)?;
    test_io::put_size(rt, report::judge(report, *table))
}

fn list(rt: &HostRuntime) -> io::Result<()> {
    let mut report = [0u8; REPORT];
    let report = test_io::get_buffer(rt, &mut report)?;
    let mut lines = [0u8; 512];
    let length = lister_lines::list(report, &mut lines);
    test_io::put_bytes(rt, &lines[..length])
}

fn same(rt: &HostRuntime, table: &FlagTable) -> io::Result<()> {
    let mut first = [0u8; REPORT];
    let first = test_io::get_buffer(rt, &mut first)?;
    let mut second = [0u8; REPORT];
    let second = test_io::get_buffer(rt, &mut second)?;
    let answer = report::same(first, second, table);
    test_io::put_size(rt, answer.map(usize::from))
}

fn fresh(rt: &HostRuntime) -> io::Result<()> {
    let mut given = [Scaled(0); 5];
    for value in &mut given {
        *value = Scaled(test_io::get_signed(rt)?);
    }
    let [box10, year, month, x, y] = given;
    let mut report = [0u8; REPORT];
    let report = test_io::get_buffer(rt, &mut report)?;
    test_io::put_done(rt, fresh::fresh(box10, year, month, x, y, report))?;
    test_io::put_bytes(rt, report)
}

fn put_contents(rt: &HostRuntime, answer: Result<Contents, Refusal>) -> io::Result<()> {
    match answer {
        Ok(contents) => {
            test_io::put_done(rt, Ok(()))?;
            test_io::put8(rt, contents.word)?;
            test_io::put8(rt, u64::from(contents.present))?;
            test_io::put8(rt, u64::from(contents.rptin))?;
            test_io::put8(rt, contents.attachments as u64)?;
            test_io::put8(rt, contents.bytes as u64)?;
            test_io::put8(rt, contents.nibbles as u64)
        }
        Err(refusal) => test_io::put_refusal(rt, refusal),
    }
}

// A report unpacked.
fn unpack(rt: &HostRuntime, table: &FlagTable) -> io::Result<()> {
    let mut report = [0u8; REPORT];
    let report = test_io::get_buffer(rt, &mut report)?;
    let mut values = [0i64; VALUES];
    let values = test_io::get_values(rt, &mut values)?;
    let mut tail = [0u8; TAIL];
    let tail = test_io::get_buffer(rt, &mut tail)?;
    put_contents(rt, unpack::unpack(report, values, tail, table))?;
    test_io::put_values(rt, values)?;
    test_io::put_bytes(rt, tail)
}

// A report unpacked, and packed again.
fn restore(rt: &HostRuntime, table: &FlagTable) -> io::Result<()> {
    let mut report = [0u8; REPORT];
    let report = test_io::get_buffer(rt, &mut report)?;
    let mut values = [0i64; VALUES];
    let values = test_io::get_values(rt, &mut values)?;
    let mut tail = [0u8; TAIL];
    let tail = test_io::get_buffer(rt, &mut tail)?;
    let mut out = [0u8; REPORT];
    let out = test_io::get_buffer(rt, &mut out)?;
    let answer = trips::restore(report, values, tail, out, table);
    test_io::put_size(rt, answer)?;
    test_io::put_values(rt, values)?;
    test_io::put_bytes(rt, tail)?;
    test_io::put_bytes(rt, out)
}

// What is packed: the values and their presence word, RPTIN, and the tail.
struct Packing<'a> {
    values: &'a [i64],
    word: u64,
    rptin: u16,
    tail: &'a [u8],
}

// What is packed, its values and its tail at the fronts of rooms.
fn get_packing<'a>(
    rt: &HostRuntime,
    values: &'a mut [i64],
    tail: &'a mut [u8],
) -> io::Result<Packing<'a>> {
    Ok(Packing {
        values: test_io::get_values(rt, values)?,
        word: test_io::get8(rt)?,
        rptin: test_io::get2(rt)?,
        tail: test_io::get_buffer(rt, tail)?,
    })
}

// Values packed.
fn pack(rt: &HostRuntime, table: &FlagTable) -> io::Result<()> {
    let mut values = [0i64; VALUES];
    let mut tail = [0u8; TAIL];
    let Packing {
        values,
        word,
        rptin,
        tail,
    } = get_packing(rt, &mut values, &mut tail)?;
    let mut out = [0u8; REPORT];
    let out = test_io::get_buffer(rt, &mut out)?;
    let answer = pack::pack(values, word, rptin, tail, out, table);
    test_io::put_size(rt, answer)?;
    test_io::put_bytes(rt, out)
}

// Values packed, and unpacked again.
fn recover(rt: &HostRuntime, table: &FlagTable) -> io::Result<()> {
    let mut values = [0i64; VALUES];
    let mut tail = [0u8; TAIL];
    let Packing {
        values,
        word,
        rptin,
        tail,
    } = get_packing(rt, &mut values, &mut tail)?;
    let mut out = [0u8; REPORT];
    let out = test_io::get_buffer(rt, &mut out)?;
    let mut values_out = [0i64; VALUES];
    let values_out = test_io::get_values(rt, &mut values_out)?;
    let mut tail_out = [0u8; TAIL];
    let tail_out = test_io::get_buffer(rt, &mut tail_out)?;
    let answer = trips::recover(values, word, rptin, tail, out, values_out, tail_out, table);
    put_contents(rt, answer)?;
    test_io::put_values(rt, values_out)?;
    test_io::put_bytes(rt, tail_out)?;
    test_io::put_bytes(rt, out)
}

// The table of the characters, over what stood there.
fn characters(rt: &HostRuntime) -> io::Result<()> {
    let mut table = [0u16; 256];
    for entry in &mut table {
        *entry = test_io::get2(rt)?;
    }
    characters::generate(&mut table);
    test_io::put_done(rt, Ok(()))?;
    for entry in &table {
        test_io::put2(rt, u64::from(*entry))?;
    }
    Ok(())
}

// The ship text of a report, read out.
fn read(rt: &HostRuntime, table: &FlagTable) -> io::Result<()> {
    let mut report = [0u8; REPORT];
    let report = test_io::get_buffer(rt, &mut report)?;
    let mut text = [0u8; SYMBOLS];
    let text = test_io::get_buffer(rt, &mut text)?;
    let mut origins = [0u8; SYMBOLS];
    let origins = test_io::get_buffer(rt, &mut origins)?;
    let reply = text_display::read_out(report, text, origins, table);
    test_io::put_reply(rt, reply)?;
    test_io::put_bytes(rt, text)?;
    test_io::put_bytes(rt, origins)
}

// The indicators of a report that have lost their data.
fn find(rt: &HostRuntime, table: &FlagTable) -> io::Result<()> {
    let mut report = [0u8; REPORT];
    let report = test_io::get_buffer(rt, &mut report)?;
    let mut out = [0u8; SMALL];
    let out = test_io::get_buffer(rt, &mut out)?;
    test_io::put_reply(rt, call_indicators::find(report, out, table))?;
    test_io::put_bytes(rt, out)
}

// Puts a text to a fresh report with room behind it.
fn put_text(text: &[u8], origins: &[u8]) -> Reply {
    let mut report = [0u8; SMALL];
    let (box10, year, month) = (Scaled(1), Scaled(1900), Scaled(1));
    fresh::fresh(box10, year, month, Scaled(0), Scaled(0), &mut report)?;
    call_puts::put_text(&mut report, text, origins, &flag_table::all_yes())
}

// The costliest text of so many symbols: the marks, the bytes that are not the program's choice, and what a put of the text gives.
fn costliest(rt: &HostRuntime) -> io::Result<()> {
    let count = test_io::get8(rt)? as usize;
    let mut text = [0u8; SMALL];
    let text = test_io::get_buffer(rt, &mut text)?;
    let mut origins = [0u8; SMALL];
    let origins = test_io::get_buffer(rt, &mut origins)?;
    let reply = text_cost::costliest(count, text, origins);
    test_io::put_reply(rt, reply)?;
    test_io::put_bytes(rt, origins)?;
    if reply.is_err() {
        return test_io::put_bytes(rt, text);
    }
    let Some((chosen, rest)) = text.split_at_checked(count) else {
        return Ok(());
    };
    test_io::put_bytes(rt, rest)?;
    let Some((marks, _)) = origins.split_at_checked(count) else {
        return Ok(());
    };
    test_io::put_reply(rt, put_text(chosen, marks))
}

// A place in nibbles, and the spaces of a run that are still to give there.
#[derive(Clone, Copy, Debug, PartialEq, Eq)]
struct Standing {
    at: usize,
    spaces: usize,
}

// Where a reader stands behind a step from a place.
fn behind(step: Option<Step>, at: usize) -> Standing
    ensures { result ≡ stands_behind step at }
{
    match step {
        Some(Step { at, spaces, .. }) => Standing { at, spaces },
        None => Standing { at, spaces: 0 },
    }
}

// The first three steps of a reader for display, with its refusal, if it has one.
#[derive(Clone, Copy, Debug, PartialEq, Eq)]
struct FirstSteps {
    refusal: Option<Refusal>,
    first: Option<Step>,
    second: Option<Step>,
    third: Option<Step>,
}

// Opens a reader of the report's ship text, and moves it on by what its steps give.
fn first_steps(report: &[u8], table: &FlagTable) -> FirstSteps
    ensures { InTurn table.now report.now result }
{
    let start = text_display::open(report, table);
    let first = text_display::next(start);
    let behind_first = behind(first, start.at);
    let middle = text_display::moved(start, behind_first.at, behind_first.spaces);
    let second = text_display::next(middle);
    let behind_second = behind(second, middle.at);
    let last = text_display::moved(middle, behind_second.at, behind_second.spaces);
    let third = text_display::next(last);
    FirstSteps {
        refusal: last.refusal,
        first,
        second,
        third,
    }
}

fn put_step(rt: &HostRuntime, step: Option<Step>) -> io::Result<()> {
    let bytes = match step {
        Some(step) => [1, step.byte, step.origin.mark()],
        None => [0, 0, 0],
    };
    test_io::put_bytes(rt, &bytes)
}

// A reader of the ship text opened, and its first three steps.
fn steps(rt: &HostRuntime, table: &FlagTable) -> io::Result<()> {
    let mut report = [0u8; REPORT];
    let report = test_io::get_buffer(rt, &mut report)?;
    let steps = first_steps(report, table);
    match steps.refusal {
        None => test_io::put_done(rt, Ok(()))?,
        Some(refusal) => test_io::put_refusal(rt, refusal)?,
    }
    put_step(rt, steps.first)?;
    put_step(rt, steps.second)?;
    put_step(rt, steps.third)
}

// One vector under a table, or a table loaded.
fn run(rt: &HostRuntime, kind: Kind, table: &mut FlagTable) -> io::Result<()> {
    match kind {
        Kind::Judge => judge(rt, table),
        Kind::List => list(rt),
        Kind::Fresh => fresh(rt),
        Kind::Unpack => unpack(rt, table),
        Kind::Pack => pack(rt, table),
        Kind::Same => same(rt, table),
        Kind::Restore => restore(rt, table),
        Kind::Recover => recover(rt, table),
        Kind::Characters => characters(rt),
        Kind::Load => test_io::load(rt, table),
        Kind::Read => read(rt, table),
        Kind::Costliest => costliest(rt),
        Kind::Find => find(rt, table),
        Kind::Steps => steps(rt, table),
    }
}

fn main(rt: HostRuntime) -> io::Result<()> {
    let mut table = flag_table::all_yes();
    for _ in 0..100000u32 {
        let Some(byte) = test_io::next(&rt)? else {
            break;
        };
        let Ok(kind) = Kind::try_from(byte) else {
            break;
        };
        run(&rt, kind, &mut table)?;
    }
    Ok(())
}
