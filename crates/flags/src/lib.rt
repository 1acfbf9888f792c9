// The flags of attachment 1: whether a body is valid under a table of permitted flags, and the quality code of fourteen flags.
#![tactic(auto)]

ghost use Rattle.std.specs.Prelude.{◌≡◌, ◌+◌, ◌*◌, ◌≤◌, ◌<◌, ◌^◌, length, take, drop};
ghost use Rattle.format.specs.Nibbles.{nibbles, Nibbles};
ghost use Rattle.format.specs.Flags.{total_weight, flag_in_range, flags_fit, flags_valid, quality_code};
ghost use Rattle.nibble.specs.View.{view, part};
ghost use Rattle.flags.specs.Word.{nibbles_in, column_of, stands};
ghost use Rattle.flags.specs.Planes.{mask, plane_of, over_of, steps_of};
ghost use Rattle.flags.specs.Missing.{MissingPermitted};

use format::FlagTable;
use nibble::Cursor;

// ---- the sixteen nibbles of a body as one number, the first highest

// Of a packed buffer, from a place on.
fn sixteen_packed(s: &[u8], at: usize) -> u64
    requires { (at + 16 ≤ 2 * length s.now) × (at ≤ 2 ^ 32) }
    ensures { nibbles_in 16 result ≡ take 16 (drop at (nibbles s.now)) }
{
    let i = at / 2;
    let w = words::word(s, i);
    if at % 2 == 0 {
        return w;
    }
    w % (1 << 60) * 16 + u64::from(s[i + 8]) / 16
}

// Of a buffer with a nibble a byte.
fn gather(s: &[u8], at: usize) -> u64
    requires { Nibbles s.now × (at + 16 ≤ length s.now) × (at ≤ 2 ^ 32) }
    ensures { nibbles_in 16 result ≡ take 16 (drop at s.now) }
{
    let mut w = 0;
    for nibble in &s[at..at + 16] {
        w = w * 16 + u64::from(*nibble);
    }
    w
}

fn sixteen(s: &[u8], c: Cursor) -> u64
    requires { Nibbles (view c.packed s.now) × (c.at + 16 ≤ length (view c.packed s.now)) × (c.at ≤ 2 ^ 32) }
    ensures { nibbles_in 16 result ≡ part s.now c 16 }
{
    if c.packed {
        sixteen_packed(s, c.at)
    } else {
        gather(s, c.at)
    }
}

// ---- fourteen flags at once: a bit of each, at the lowest place of its nibble

// Bit k of each flag that a number holds.
#[tactic(auto, using(crate::proofs::Planes::plane_is))]
fn plane(flags: u64, k: u64) -> u64
    requires { k < 4 }
    ensures { (result ≡ plane_of k (mask 14) flags) × (result < 2 ^ 53) }
{
    (flags >> k) & 0x11111111111111
}

// A bit for each flag over 10.
#[tactic(auto, using(crate::proofs::Planes::over_is))]
fn over_ten(flags: u64) -> u64
    ensures { result ≡ over_of (mask 14) flags }
{
    let b = plane(flags, 2);
    let c = plane(flags, 1);
    let d = plane(flags, 0);
    plane(flags, 3) & (b | (c & d))
}

// For each flag as many bits as it weighs: one from 2 on, two from 4 on, three from 7 to 10.
#[tactic(auto, using(crate::proofs::Planes::or_small, crate::proofs::Planes::and_small))]
fn steps(flags: u64) -> u64
    ensures { result ≡ steps_of (mask 14) flags }
{
    let a = plane(flags, 3);
    let b = plane(flags, 2);
    let c = plane(flags, 1);
    let d = plane(flags, 0);
    (a | b | c) + 2 * (a | b) + 4 * (a | (b & c & d)) - 7 * over_ten(flags)
}

// ---- the quality code

// The weights of the fourteen flags that a number holds.
fn weigh(flags: u64) -> u64
    ensures { (result ≡ total_weight (nibbles_in 14 flags)) × (result ≤ 42) }
{
    u64::from(steps(flags).count_ones())
}

// Their quality code.
#[tactic(auto, using(crate::proofs::Body::code_missing, crate::proofs::Body::code_given))]
fn code_of(flags: u64) -> u64
    requires { flags < 2 ^ 56 }
    ensures { (result ≡ quality_code (nibbles_in 14 flags)) × (result ≤ 43) }
{
    if flags == 0 {
        return 0;
    }
    1 + weigh(flags)
}

// The quality code of the fourteen flags of the body at a place.
pub fn quality(s: &[u8], c: Cursor) -> u8
    requires { Nibbles (view c.packed s.now) × (c.at + 16 ≤ length (view c.packed s.now)) × (c.at ≤ 2 ^ 32) }
    ensures { result ≡ quality_code (part s.now c 14) }
{
    let w = sixteen(s, c);
    code_of(w / 256) as u8
}

// ---- the table

// Whether flag j may be set to v.
pub fn in_range(j: usize, v: usize, marks: FlagTable) -> bool
    requires { (1 ≤ j) × (j ≤ 14) }
    ensures { result ≡ flag_in_range marks j v }
{
    (1..=10).contains(&v) && marks[j - 1][v - 1] == 1
}

// The column of a value. A missing flag gets the last one, so that a mark is looked up for every flag without a branch.
#[tactic(auto, unfolding(crate::specs::Word::column_of))]
fn column(v: u64) -> usize
    requires { v ≤ 10 }
    ensures { (result ≡ column_of v) × (result < 10) }
{
    if v == 0 {
        return 9;
    }
    (v - 1) as usize
}

// Whether a flag of this value may stand, given its mark, which does not count where the flag is missing. It looks at both.
#[tactic(auto, using(crate::proofs::Body::stands_is))]
fn stands(v: u64, mark: u8) -> bool
    requires { v ≤ 10 }
    ensures { result ≡ stands v mark }
{
    (v == 0) | (mark == 1)
}

// Whether fourteen flags, none over 10, may stand under a table. It looks at all of them and has no branch for a flag, which the
// processor would often guess wrong.
fn permitted(flags: u64, marks: &FlagTable) -> bool
    requires { over_of (mask 14) flags ≡ 0 }
    ensures { result ≡ flags_fit marks.now 1 (nibbles_in 14 flags) }
{
    let mut left = flags;
    let mut all = true;
    for row in marks.iter().rev() {
        let v = left % 16;
        all &= stands(v, row[column(v)]);
        left /= 16;
    }
    all
}

// Whether the fourteen flags that a number holds may stand under a table.
#[tactic(auto, using(crate::proofs::Planes::over_unfit))]
fn fit(flags: u64, marks: &FlagTable) -> bool
    ensures { result ≡ flags_fit marks.now 1 (nibbles_in 14 flags) }
{
    over_ten(flags) == 0 && permitted(flags, marks)
}

// Whether len nibbles from a place on are a valid body of attachment 1 under a table.
pub fn valid(s: &[u8], c: Cursor, len: usize, marks: FlagTable) -> bool
    requires { Nibbles (view c.packed s.now) × (c.at + len ≤ length (view c.packed s.now)) × (c.at + len ≤ 2 ^ 32) }
    ensures { (result ≡ flags_valid marks (part s.now c len)) × MissingPermitted marks }
{
    if len != 16 {
        return false;
    }
    let w = sixteen(s, c);
    w == 0 || fit(w / 256, &marks) && w % 256 == code_of(w / 256)
}
