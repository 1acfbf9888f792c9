// The attachments behind the card: a walk that checks each under a table of permitted flags, and says where they end and where one id stands, or how many there are.
#![tactic(auto)]

ghost use Rattle.std.specs.Prelude.{◌≡◌, ◌+◌, ◌≤◌, ◌<◌, ◌^◌, length};
ghost use Rattle.format.specs.Nibbles.{Nibbles};
ghost use Rattle.format.specs.Report.{body_valid};
ghost use Rattle.format.specs.Reply.{by_number};
ghost use Rattle.nibble.specs.View.{view, part};
ghost use Rattle.tail.specs.Look.{judged_at, looked_at, start_at, passed_by};
ghost use Rattle.tail.specs.Walk.{walked, tail_counted};

use format::{FlagTable, Refusal};
use nibble::{Cursor, Header};

// Where an attachment stands: the place of its header, in nibbles, and its AL.
#[derive(Clone, Copy, Debug, PartialEq, Eq)]
pub struct Held {
    pub place: usize,
    pub al: usize,
}

// Where attachments end, and where the one of an id stands, if it does.
#[derive(Clone, Copy, Debug, PartialEq, Eq)]
pub struct Tail {
    pub end: usize,
    pub held: Option<Held>,
}

// A walk's cursor, the ids seen, and where the id that is asked for stands, if it was passed.
#[derive(Clone, Copy)]
struct State {
    cursor: Cursor,
    mask: u64,
    held: Option<Held>,
}

// The ids whose contents have rules of their own.
const FLAGS: usize = 1;

const SHIP_TEXT: usize = 4;

// Whether len nibbles from a place on may stand under an id.
#[tactic(auto, unfolding(format::specs::Report::body_valid))]
pub fn body_valid(s: &[u8], c: Cursor, id: usize, len: usize, marks: &FlagTable) -> bool
    requires { Nibbles (view c.packed s.now) × (c.at + len ≤ length (view c.packed s.now)) × (c.at + len ≤ 2 ^ 32) × (len ≤ 4096) }
    ensures { result ≡ body_valid marks.now id (part s.now c len) }
{
    match id {
        FLAGS => flags::valid(s, c, len, *marks),
        SHIP_TEXT => text::valid(s, c, len),
        _ => true,
    }
}

// The attachment of a header, at a position from 1.
#[inline(always)]
#[tactic(auto, using(crate::proofs::Checks::data_fit), unfolding(crate::specs::Look::judged_at))]
fn judged(
    s: &[u8],
    header: Header,
    mask: u64,
    marks: &FlagTable,
    position: usize,
) -> Result<Header, Refusal>
    requires { Nibbles (view header.body.packed s.now) × (header.body.at ≤ length (view header.body.packed s.now)) × (header.body.at ≤ 2 ^ 31) × (header.al < 256) × (header.id < 16) }
    ensures { by_number result ≡ judged_at marks.now s.now header mask position }
{
    if header.al == 0 || header.id == 0 || (mask >> header.id) % 2 == 1 {
        return Err(Refusal::Attachment(position));
    }
    let last = header.body.at + header.al;
    if !nibble::inside(s, last - 1, header.body.packed) {
        return Err(Refusal::Short(position));
    }
    if !body_valid(s, header.body, header.id, header.al, marks) {
        return Err(Refusal::Body(position));
    }
    Ok(header)
}

// The header of the attachment at a place and a position. Inlined, since a header that is handed out by a call goes through memory,
// which each turn of a walk would wait for.
#[inline(always)]
#[tactic(auto, using(crate::proofs::Checks::look_short, crate::proofs::Checks::look_judged))]
fn look(
    s: &[u8],
    c: Cursor,
    mask: u64,
    marks: &FlagTable,
    position: usize,
) -> Result<Header, Refusal>
    requires { Nibbles (view c.packed s.now) × (c.at ≤ 2 ^ 30) }
    ensures { by_number result ≡ looked_at marks.now s.now c mask position }
{
    let Some(header) = c.header(s) else {
        return Err(Refusal::Short(position));
    };
    judged(s, header, mask, marks, position)
}

impl State {
    fn start(cursor: Cursor) -> State
        ensures { result ≡ start_at cursor }
    {
        State {
            cursor,
            mask: 0,
            held: None,
        }
    }

    // The state behind an attachment.
    fn passed(self, header: Header, want: usize) -> State
        requires { (header.body.at ≤ 2 ^ 31) × (header.al < 256) × (header.id < 16) }
        ensures { result ≡ passed_by self header want }
    {
        let held = if header.id == want {
            Some(Held {
                place: self.cursor.at,
                al: header.al,
            })
        } else {
            self.held
        };
        State {
            cursor: header.body.skip(header.al),
            mask: self.mask | (1 << header.id),
            held,
        }
    }
}

// Checks count attachments from a place on; where they end, and where an id stands among them.
#[tactic(auto, using(crate::proofs::Turns::walk_start, crate::proofs::Turns::walk_look, crate::proofs::Turns::walk_fault, crate::proofs::Turns::walk_more))]
pub fn walk(
    s: &[u8],
    c: Cursor,
    count: usize,
    want: usize,
    marks: &FlagTable,
) -> Result<Tail, Refusal>
    requires { Nibbles (view c.packed s.now) × (c.at ≤ length (view c.packed s.now)) × (c.at ≤ 65536) }
    ensures { by_number result ≡ walked marks.now s.now c count want }
{
    let mut state = State::start(c);
    // Not over 1..=count, with which each turn takes longer.
    for index in 0..count {
        let header = look(s, state.cursor, state.mask, marks, index + 1)?;
        state = state.passed(header, want);
    }
    Ok(Tail {
        end: state.cursor.at,
        held: state.held,
    })
}

// Checks the attachments of a tail, one nibble a byte, to its end, and counts them.
#[tactic(auto, using(crate::proofs::Turns::walk_look, crate::proofs::Count::count_start, crate::proofs::Count::count_fault))]
pub fn walk_tail(s: &[u8], marks: &FlagTable) -> Result<usize, Refusal>
    requires { Nibbles s.now }
    ensures { by_number result ≡ tail_counted marks.now s.now }
{
    let mut state = State::start(Cursor {
        at: 0,
        packed: false,
    });
    let mut count = 0;
    while state.cursor.at < s.len() {
        let header = look(s, state.cursor, state.mask, marks, count + 1)?;
        state = state.passed(header, 0);
        count += 1;
    }
    Ok(count)
}
