// Nibbles of a packed buffer stored, moved and cleared in place. Places are counted in nibbles.
#![tactic(auto)]

ghost use Rattle.std.specs.Prelude.{◌≡◌, ℕ, ◌+◌, ◌*◌, ◌%◌, ◌≤◌, ◌<◌, ◌^◌, length, drop, set, replicate};
ghost use Rattle.std.proofs.Math.Seq.{paste};
ghost use Rattle.format.specs.Nibbles.{nibbles};

// Stores v at a place.
pub fn put(s: &mut [u8], at: usize, v: u8)
    requires { (at < 2 * length s.old) × (at ≤ 2 ^ 32) × (v < 16) }
    ensures { (nibbles s.new ≡ set (nibbles s.old) at v) × (length s.new ≡ length s.old) }
{
    let i = at / 2;
    let b = s[i];
    if at % 2 == 0 {
        s[i] = v * 16 + b % 16;
        return;
    }
    s[i] = b / 16 * 16 + v;
}

// ---- shift

// Makes byte t of the two nibbles that start in byte f, at its low half if odd is 1.
#[tactic(auto, using(crate::proofs::Stores::byte_moved, crate::proofs::Stores::halves_moved))]
fn pair(s: &mut [u8], f: usize, t: usize, odd: usize)
    requires { (odd ≤ 1) × (f + odd < length s.old) × (t < length s.old) }
    ensures { nibbles s.new ≡ paste (nibbles s.old) (2 * t) (drop (2 * f + odd) (nibbles s.old)) 2 }
{
    let x = s[f];
    if odd == 0 {
        s[t] = x;
        return;
    }
    let y = s[f + 1];
    s[t] = x % 16 * 16 + y / 16;
}

// Moves 2 n nibbles down, to a whole byte.
fn pairs_down(s: &mut [u8], from: usize, to: usize, n: usize)
    requires { (to % 2 ≡ 0) × (to ≤ from) × (from + 2 * n ≤ 2 * length s.old) }
    ensures { nibbles s.new ≡ paste (nibbles s.old) to (drop from (nibbles s.old)) (2 * n) }
{
    let f = from / 2;
    let t = to / 2;
    let odd = from % 2;
    for k in 0..n {
        pair(s, f + k, t + k, odd);
    }
}

// Moves 2 n nibbles up, to a whole byte. A function of its own: one loop for both ways would ask at each byte which way it goes.
fn pairs_up(s: &mut [u8], from: usize, to: usize, n: usize)
    requires { (to % 2 ≡ 0) × (from ≤ to) × (to + 2 * n ≤ 2 * length s.old) }
    ensures { nibbles s.new ≡ paste (nibbles s.old) to (drop from (nibbles s.old)) (2 * n) }
{
    let f = from / 2;
    let t = to / 2;
    let odd = from % 2;
    for k in (0..n).rev() {
        pair(s, f + k, t + k, odd);
    }
}

// Moves 2 n nibbles to a whole byte, either way.
#[tactic(auto, using(crate::proofs::Paste::paste_self))]
fn pairs(s: &mut [u8], from: usize, to: usize, n: usize)
    requires { (to % 2 ≡ 0) × (from + 2 * n ≤ 2 * length s.old) × (to + 2 * n ≤ 2 * length s.old) }
    ensures { nibbles s.new ≡ paste (nibbles s.old) to (drop from (nibbles s.old)) (2 * n) }
{
    if from < to {
        pairs_up(s, from, to, n);
        return;
    }
    if to < from {
        pairs_down(s, from, to, n);
    }
}

// Moves count nibbles from a place to another, either way; the two runs may overlap.
// Whole bytes are filled first, then the first and the last nibble, which may stand alone.
pub fn shift(s: &mut [u8], from: usize, to: usize, count: usize)
    requires { (from + count ≤ 2 * length s.old) × (to + count ≤ 2 * length s.old) × (from + count ≤ 2 ^ 32) × (to + count ≤ 2 ^ 32) }
    ensures { (nibbles s.new ≡ paste (nibbles s.old) to (drop from (nibbles s.old)) count) × (length s.new ≡ length s.old) }
{
    if count == 0 {
        return;
    }
    let head = to % 2;
    let last = count - 1;
    let x = nibble::packed_at(s, from);
    let y = nibble::packed_at(s, from + last);
    pairs(s, from + head, to + head, (count - head) / 2);
    put(s, to, x);
    put(s, to + last, y);
}

// ---- clear

// Clears n bytes from a place on.
fn clear_bytes(s: &mut [u8], at: usize, n: usize)
    requires { (at % 2 ≡ 0) × (at + 2 * n ≤ 2 * length s.old) }
    ensures { nibbles s.new ≡ paste (nibbles s.old) at (replicate {A = ℕ} (2 * n) 0) (2 * n) }
{
    let i = at / 2;
    s[i..i + n].fill(0);
}

// Clears count nibbles from a place on.
pub fn clear(s: &mut [u8], at: usize, count: usize)
    requires { (at + count ≤ 2 * length s.old) × (at + count ≤ 2 ^ 32) }
    ensures { (nibbles s.new ≡ paste (nibbles s.old) at (replicate {A = ℕ} count 0) count) × (length s.new ≡ length s.old) }
{
    if count == 0 {
        return;
    }
    let head = at % 2;
    clear_bytes(s, at + head, (count - head) / 2);
    put(s, at, 0);
    put(s, at + (count - 1), 0);
}
