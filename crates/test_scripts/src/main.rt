// Runs lists of calls as scripts over vectors of the independent implementation.
#![tactic(auto)]

ghost use Rattle.std.specs.Prelude.{◌≤◌, IfOk};

use format::FlagTable;
use std::io;

// The most bytes of a vector's buffer, and of its script and its log.
const BUFFER: usize = 2000;

const SCRIPT: usize = 60000;

// The high byte of a length that begins a table instead of a list.
const LOAD: u8 = 255;

// What a log holds before it is written.
const BLANK: u8 = 165;

// A length of four bytes, at most that of a script.
fn get_long(rt: &HostRuntime) -> io::Result<usize>
    ensures { IfOk result (λ length. length ≤ 60000) }
{
    Ok(SCRIPT.min(test_io::get4(rt)? as usize))
}

// One list under a table, of whose buffer's length the high byte is given.
fn run(rt: &HostRuntime, high: u8, table: &FlagTable) -> io::Result<()> {
    let mut buffer = [0u8; BUFFER];
    let mut script = [0u8; SCRIPT];
    let mut log = [BLANK; SCRIPT];
    let low = test_io::next(rt)?.unwrap_or(0);
    let length = BUFFER.min(usize::from(u16::from_be_bytes([high, low])));
    let buffer = &mut buffer[..length];
    test_io::get_bytes(rt, buffer)?;
    let length = get_long(rt)?;
    let script = &mut script[..length];
    test_io::get_bytes(rt, script)?;
    let length = get_long(rt)?;
    let log = &mut log[..length];
    let performed = replay::replay(buffer, script, log, table);
    test_io::put4(rt, performed.calls)?;
    test_io::put4(rt, performed.taken)?;
    test_io::put4(rt, performed.written)?;
    test_io::put_bytes(rt, buffer)?;
    test_io::put_bytes(rt, log)
}

// Lists and tables to the end of the input.
fn main(rt: HostRuntime) -> io::Result<()> {
    let mut table = flag_table::all_yes();
    for _ in 0..100000u32 {
        let Some(high) = test_io::next(&rt)? else {
            break;
        };
        if high == LOAD {
            test_io::load(&rt, &mut table)?;
        } else {
            run(&rt, high, &table)?;
        }
    }
    Ok(())
}
