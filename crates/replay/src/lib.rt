// A replay: a script of calls performed on one buffer under one table of permitted flags, and the log of their answers.
#![tactic(auto)]

ghost use Rattle.std.specs.Prelude.{◌≡◌, ◌+◌, ◌≤◌, length, take, drop, [], ◌∷◌};
ghost use Rattle.format.specs.Calls as call;
ghost use Rattle.format.specs.Buffer.{after, effect};
ghost use Rattle.format.specs.Calls.{over};
ghost use Rattle.format.specs.Reply.{answer_of};
ghost use Rattle.script.specs.Script.{head_of, turn, Performs};
ghost use Rattle.replay.specs.Counts.{leaves, left_by, Starts, Begun, Kinded, Second, Counted};

use format::{FlagTable, Reply, Scaled};

// Bytes of an entry that names a number, and of one with a second number behind it.
const ENTRY: usize = 9;

const ENTRY_OF_TWO: usize = 17;

// Bytes of an answer in the log.
const ANSWER: usize = 37;

// How many calls were performed, and how many bytes of script and log they took.
#[derive(Clone, Copy, Debug, PartialEq, Eq)]
pub struct Performed {
    pub calls: usize,
    pub taken: usize,
    pub written: usize,
}

// How many bytes of script and log an entry took.
#[derive(Clone, Copy, Debug, PartialEq, Eq)]
struct Entry {
    taken: usize,
    written: usize,
}

// The kind of an entry, by its first byte.
#[derive(Clone, Copy, Debug, PartialEq, Eq)]
enum Kind {
    ReadField = 1,
    SetField = 2,
    ClearField = 3,
    ReadFlag = 4,
    SetFlag = 5,
    ClearFlag = 6,
    Put = 7,
    Fetch = 8,
    Remove = 9,
    PutText = 10,
    FetchText = 11,
    ClearWithIndicators = 12,
}

fn kind_of(byte: u8) -> Option<Kind>
    ensures { Kinded byte result }
{
    match byte {
        1 => Some(Kind::ReadField),
        2 => Some(Kind::SetField),
        3 => Some(Kind::ClearField),
        4 => Some(Kind::ReadFlag),
        5 => Some(Kind::SetFlag),
        6 => Some(Kind::ClearFlag),
        7 => Some(Kind::Put),
        8 => Some(Kind::Fetch),
        9 => Some(Kind::Remove),
        10 => Some(Kind::PutText),
        11 => Some(Kind::FetchText),
        12 => Some(Kind::ClearWithIndicators),
        _ => None,
    }
}

// The second number of an entry, if the script has it.
fn second(script: &[u8]) -> Option<u64>
    ensures { Second script.now result }
{
    if script.len() < ENTRY_OF_TWO {
        return None;
    }
    Some(script::number_at(script, ENTRY))
}

// The end of the counted bytes whose count stands at a place, if they are whole.
fn counted(script: &[u8], at: usize) -> Option<usize>
    requires { at ≤ length script.now }
    ensures { Counted script.now at result }
{
    let left = script.len() - at;
    if left < 8 {
        return None;
    }
    let count = script::number_at(script, at) as usize;
    if left - 8 < count {
        return None;
    }
    Some(at + 8 + count)
}

// Writes an answer to the front of a log.
fn answered(reply: Reply, taken: usize, written: usize, log: &mut [u8]) -> Entry
    requires { 37 ≤ length log.old }
    ensures { (log.new ≡ over (head_of (answer_of reply)) log.old) × (result ≡ record { taken = taken; written = written }) }
{
    script::put_reply(log, reply);
    Entry { taken, written }
}

// ---- an entry of each longer kind

// Sets a field.
fn set_field(
    buffer: &mut [u8],
    number: usize,
    script: &[u8],
    log: &mut [u8],
    table: &FlagTable,
) -> Option<Entry>
    requires { Begun 2 number script.now log.old }
    ensures { left_by buffer.new log.new result ≡ turn table.now buffer.old script.now log.old }
{
    let value = Scaled(numbers::signed_of(second(script)?));
    let reply = call_fields::set_field(buffer, number, value, table);
    Some(answered(reply, ENTRY_OF_TWO, ANSWER, log))
}

// Sets a flag.
fn set_flag(
    buffer: &mut [u8],
    number: usize,
    script: &[u8],
    log: &mut [u8],
    table: &FlagTable,
) -> Option<Entry>
    requires { Begun 5 number script.now log.old }
    ensures { left_by buffer.new log.new result ≡ turn table.now buffer.old script.now log.old }
{
    let value = second(script)?;
    let reply = call_flags::set_flag(buffer, number, value as usize, table);
    Some(answered(reply, ENTRY_OF_TWO, ANSWER, log))
}

// Puts an attachment.
fn put(
    buffer: &mut [u8],
    number: usize,
    script: &[u8],
    log: &mut [u8],
    table: &FlagTable,
) -> Option<Entry>
    requires { Begun 7 number script.now log.old }
    ensures { left_by buffer.new log.new result ≡ turn table.now buffer.old script.now log.old }
{
    let end = counted(script, ENTRY)?;
    let reply = call_puts::put(buffer, number, &script[ENTRY_OF_TWO..end], table);
    Some(answered(reply, end, ANSWER, log))
}

// Puts a ship text.
fn put_text(buffer: &mut [u8], script: &[u8], log: &mut [u8], table: &FlagTable) -> Option<Entry>
    requires { Starts 10 script.now log.old }
    ensures { left_by buffer.new log.new result ≡ turn table.now buffer.old script.now log.old }
{
    let middle = counted(script, 1)?;
    let end = counted(script, middle)?;
    let reply = call_puts::put_text(
        buffer,
        &script[ENTRY..middle],
        &script[middle + 8..end],
        table,
    );
    Some(answered(reply, end, ANSWER, log))
}

// Fetches an attachment to a copy of the output in the script.
fn fetch(
    buffer: &[u8],
    number: usize,
    script: &[u8],
    log: &mut [u8],
    table: &FlagTable,
) -> Option<Entry>
    requires { Begun 8 number script.now log.old }
    ensures { left_by buffer.now log.new result ≡ turn table.now buffer.now script.now log.old }
{
    let end = counted(script, ENTRY)?;
    let lent = &script[ENTRY_OF_TWO..end];
    if log.len() - ANSWER < lent.len() {
        return None;
    }
    let to = ANSWER + lent.len();
    script::copy(lent, &mut log[ANSWER..to]);
    let reply = call_fetches::fetch(buffer, number, &mut log[ANSWER..to], table);
    Some(answered(reply, end, to, log))
}

// Fetches the ship text to copies of both outputs, one behind the other.
fn fetch_both(
    buffer: &[u8],
    out: &[u8],
    origins: &[u8],
    both: &mut [u8],
    table: &FlagTable,
) -> Reply
    requires { length both.old ≡ length out.now + length origins.now }
    ensures { (length both.new ≡ length both.old)
        × (after (answer_of result) buffer.now (take (length out.now) both.new ∷ drop (length out.now) both.new ∷ [])
        ≡ effect table.now buffer.now (call.fetches (call.fetch_text out.now origins.now))) }
{
    let (first, second) = both.split_at_mut(out.len());
    script::copy(out, first);
    script::copy(origins, second);
    call_fetches::fetch_text(buffer, first, second, table)
}

// Fetches the ship text to copies of the outputs in the script.
fn fetch_text(buffer: &[u8], script: &[u8], log: &mut [u8], table: &FlagTable) -> Option<Entry>
    requires { Starts 11 script.now log.old }
    ensures { left_by buffer.now log.new result ≡ turn table.now buffer.now script.now log.old }
{
    let middle = counted(script, 1)?;
    let end = counted(script, middle)?;
    let out = &script[ENTRY..middle];
    let origins = &script[middle + 8..end];
    let to = ANSWER + out.len() + origins.len();
    if log.len() < to {
        return None;
    }
    let reply = fetch_both(buffer, out, origins, &mut log[ANSWER..to], table);
    Some(answered(reply, end, to, log))
}

// ---- a script

// Performs the entry at the head of a script, if it is whole and its record fits the log.
fn perform(buffer: &mut [u8], script: &[u8], log: &mut [u8], table: &FlagTable) -> Option<Entry>
    ensures { left_by buffer.new log.new result ≡ turn table.now buffer.old script.now log.old }
{
    if script.len() < ENTRY || log.len() < ANSWER {
        return None;
    }
    let kind = kind_of(script[0])?;
    let number = script::number_at(script, 1) as usize;
    match kind {
        Kind::ReadField => Some(answered(
            call_fields::read_field(buffer, number, table),
            ENTRY,
            ANSWER,
            log,
        )),
        Kind::SetField => set_field(buffer, number, script, log, table),
        Kind::ClearField => Some(answered(
            call_fields::clear_field(buffer, number, table),
            ENTRY,
            ANSWER,
            log,
        )),
        Kind::ReadFlag => Some(answered(
            call_flags::read_flag(buffer, number, table),
            ENTRY,
            ANSWER,
            log,
        )),
        Kind::SetFlag => set_flag(buffer, number, script, log, table),
        Kind::ClearFlag => Some(answered(
            call_flags::clear_flag(buffer, number, table),
            ENTRY,
            ANSWER,
            log,
        )),
        Kind::Put => put(buffer, number, script, log, table),
        Kind::Fetch => fetch(buffer, number, script, log, table),
        Kind::Remove => Some(answered(
            call_attachments::remove(buffer, number, table),
            ENTRY,
            ANSWER,
            log,
        )),
        Kind::PutText => put_text(buffer, script, log, table),
        Kind::FetchText => fetch_text(buffer, script, log, table),
        Kind::ClearWithIndicators => Some(answered(
            call_indicators::clear(buffer, number, table),
            ENTRY,
            ANSWER,
            log,
        )),
    }
}

// Performs the entries of a script in their order, each on the buffer as the one before left it, and writes their records to
// the log.
pub fn replay(buffer: &mut [u8], script: &[u8], log: &mut [u8], table: &FlagTable) -> Performed
    ensures { Performs table.now (leaves buffer.new log.new result) buffer.old script.now log.old }
{
    let mut all = Performed {
        calls: 0,
        taken: 0,
        written: 0,
    };
    while let Some(entry) = perform(buffer, &script[all.taken..], &mut log[all.written..], table) {
        all.calls += 1;
        all.taken += entry.taken;
        all.written += entry.written;
    }
    all
}
