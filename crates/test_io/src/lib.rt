// Numbers and answers of the test vectors, over standard input and output. Numbers stand highest byte first.
#![tactic(auto)]

ghost use Rattle.std.specs.Prelude.{◌≤◌, IfOk, length, min};

use format::{DeckSet, FlagTable, Outcome, Refusal, Reply};
use std::io;

// The next byte of the input, none at its end.
pub fn next(rt: &HostRuntime) -> io::Result<Option<u8>> {
    let mut byte = [0u8; 1];
    let count = streams::read_full(&mut rt.stdin(), &mut byte)?;
    Ok(if count == 0 { None } else { Some(byte[0]) })
}

// Bytes of the input; where it ends before, what stood there stays.
pub fn get_bytes(rt: &HostRuntime, part: &mut [u8]) -> io::Result<()> {
    streams::read_full(&mut rt.stdin(), part)?;
    Ok(())
}

// Two bytes of the input; 0 where it ends before.
pub fn get2(rt: &HostRuntime) -> io::Result<u16> {
    let mut bytes = [0u8; 2];
    get_bytes(rt, &mut bytes)?;
    Ok(u16::from_be_bytes(bytes))
}

// Longer numbers are read by two bytes at a time, so that an end within one, as a terminal has it, is met where it was.
pub fn get4(rt: &HostRuntime) -> io::Result<u32> {
    Ok(u32::from(get2(rt)?) << 16 | u32::from(get2(rt)?))
}

pub fn get8(rt: &HostRuntime) -> io::Result<u64> {
    Ok(u64::from(get4(rt)?) << 32 | u64::from(get4(rt)?))
}

// A signed number of eight bytes, in two's complement.
pub fn get_signed(rt: &HostRuntime) -> io::Result<i64> {
    Ok(get8(rt)?.cast_signed())
}

// A length of two bytes, at most `most`.
pub fn get_length(rt: &HostRuntime, most: usize) -> io::Result<usize>
    ensures cut { IfOk result (λ length. length ≤ most) }
    ensures two_bytes { IfOk result (λ length. length ≤ 65535) }
{
    Ok(most.min(get2(rt)? as usize))
}

// Bytes behind their length, at the front of a room that they are cut to. Where the input ends before, what stood there stays.
pub fn get_buffer<'a>(rt: &HostRuntime, room: &'a mut [u8]) -> io::Result<&'a mut [u8]>
    ensures { IfOk result (λ buffer. length buffer.now ≤ min (length room.old) 65535) }
{
    let length = get_length(rt, room.len())?;
    let buffer = &mut room[..length];
    get_bytes(rt, buffer)?;
    Ok(buffer)
}

// Signed numbers behind how many they are, at the front of a room that they are cut to; 0 where the input ends before.
pub fn get_values<'a>(rt: &HostRuntime, room: &'a mut [i64]) -> io::Result<&'a mut [i64]>
    ensures { IfOk result (λ values. length values.now ≤ min (length room.old) 65535) }
{
    let count = get_length(rt, room.len())?;
    let values = &mut room[..count];
    for value in values.iter_mut() {
        *value = get_signed(rt)?;
    }
    Ok(values)
}

pub fn put_bytes(rt: &HostRuntime, part: &[u8]) -> io::Result<()> {
    rt.write_all(part)
}

// The low two bytes of a number.
pub fn put2(rt: &HostRuntime, number: u64) -> io::Result<()> {
    put_bytes(rt, &number.to_be_bytes()[6..])
}

// The low four bytes of a number.
pub fn put4(rt: &HostRuntime, number: usize) -> io::Result<()> {
    put_bytes(rt, &number.to_be_bytes()[4..])
}

pub fn put8(rt: &HostRuntime, number: u64) -> io::Result<()> {
    put_bytes(rt, &number.to_be_bytes())
}

pub fn put_values(rt: &HostRuntime, values: &[i64]) -> io::Result<()> {
    for value in values {
        put_bytes(rt, &value.to_be_bytes())?;
    }
    Ok(())
}

// The head of an answer: a tag, a number, and eight bytes.
fn put_head(rt: &HostRuntime, tag: u8, number: u8, place: usize) -> io::Result<()> {
    put_bytes(rt, &[tag, number])?;
    put8(rt, place as u64)
}

pub fn put_refused(rt: &HostRuntime, number: u8, place: usize) -> io::Result<()> {
    put_head(rt, 0, number, place)
}

pub fn put_refusal(rt: &HostRuntime, refusal: Refusal) -> io::Result<()> {
    put_refused(rt, refusal.number(), refusal.place())
}

// The answer of a call that gives nothing.
pub fn put_done(rt: &HostRuntime, answer: Result<(), Refusal>) -> io::Result<()> {
    match answer {
        Ok(()) => put_head(rt, 1, 0, 0),
        Err(refusal) => put_refusal(rt, refusal),
    }
}

// The answer of a call that gives a number.
pub fn put_size(rt: &HostRuntime, answer: Result<usize, Refusal>) -> io::Result<()> {
    match answer {
        Ok(size) => put_head(rt, 2, 0, size),
        Err(refusal) => put_refusal(rt, refusal),
    }
}

fn set_number(set: DeckSet) -> u64 {
    match set {
        DeckSet::Unknown => 0,
        DeckSet::Ebcdic => 1,
        DeckSet::Ascii => 2,
    }
}

// The answer of a call on a buffer.
pub fn put_reply(rt: &HostRuntime, reply: Reply) -> io::Result<()> {
    match reply {
        Err(refusal) => put_refusal(rt, refusal),
        Ok(Outcome::Nothing) => put_done(rt, Ok(())),
        Ok(Outcome::Count(count)) => put_size(rt, Ok(count)),
        Ok(Outcome::Nibbles(nibbles)) => put_size(rt, Ok(usize::from(nibbles))),
        Ok(Outcome::Text(count, set, nibbles)) => {
            put_size(rt, Ok(count))?;
            put8(rt, set_number(set))?;
            put8(rt, u64::from(nibbles))
        }
        // No call of the vectors gives a field's value or a flag's.
        Ok(Outcome::Value(_) | Outcome::Flag(_)) => Ok(()),
    }
}

// Loads a table that stands on the input, and writes the answer and the table in force after it.
pub fn load(rt: &HostRuntime, table: &mut FlagTable) -> io::Result<()> {
    let mut room = [0u8; 200];
    let lent = get_buffer(rt, &mut room)?;
    put_done(rt, flag_table::judge(lent))?;
    *table = flag_table::load(lent, *table);
    for row in &*table {
        put_bytes(rt, row)?;
    }
    Ok(())
}
