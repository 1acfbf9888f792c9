// Nibbles between a packed buffer, where places are counted in nibbles, and a buffer of one nibble a byte.
#![tactic(auto)]

ghost use Rattle.std.specs.Prelude.{◌≡◌, ◌+◌, ◌*◌, ◌/◌, ◌%◌, ◌≤◌, ◌<◌, ◌^◌, ◌++◌, length, get_or, take, drop};
ghost use Rattle.std.proofs.Math.Seq.{paste};
ghost use Rattle.format.specs.Nibbles.{nibbles, Nibbles};

// ---- lay

// Two nibbles of ns as one number, the first one low.
// It is a function of its own so that the compiler makes one read of it, and lays many bytes at once.
fn two(ns: &[u8], p: usize) -> u16
    requires { (p + 1 < length ns.now) × Nibbles ns.now }
    ensures { (result % 256 ≡ get_or ns.now p 0) × (result / 256 ≡ get_or ns.now (p + 1) 0) × (result % 256 < 16) × (result / 256 < 16) }
{
    u16::from_le_bytes([ns[p], ns[p + 1]])
}

// Lays n bytes of the nibbles of ns from j on.
fn lay_bytes(s: &mut [u8], at: usize, ns: &[u8], j: usize, n: usize)
    requires { (at % 2 ≡ 0) × (at + 2 * n ≤ 2 * length s.old) × (j + 2 * n ≤ length ns.now) × Nibbles ns.now }
    ensures { nibbles s.new ≡ paste (nibbles s.old) at (drop j ns.now) (2 * n) }
{
    let i = at / 2;
    for k in 0..n {
        let x = two(ns, j + 2 * k);
        s[i + k] = (x % 256 * 16 + x / 256) as u8;
    }
}

// Lays nibbles, one a byte of ns, from a place on.
pub fn lay(s: &mut [u8], at: usize, ns: &[u8])
    requires { (at + length ns.now ≤ 2 * length s.old) × (at + length ns.now ≤ 2 ^ 32) × Nibbles ns.now }
    ensures { (nibbles s.new ≡ paste (nibbles s.old) at ns.now (length ns.now)) × (length s.new ≡ length s.old) }
{
    let count = ns.len();
    if count == 0 {
        return;
    }
    let head = at % 2;
    let last = count - 1;
    lay_bytes(s, at + head, ns, head, (count - head) / 2);
    nibble_edit::put(s, at, ns[0]);
    nibble_edit::put(s, at + last, ns[last]);
}

// ---- fetch

// Fetches the nibbles of n bytes, to out from j on.
fn fetch_bytes(s: &[u8], at: usize, out: &mut [u8], j: usize, n: usize)
    requires { (at % 2 ≡ 0) × (at + 2 * n ≤ 2 * length s.now) × (j + 2 * n ≤ length out.old) }
    ensures { out.new ≡ paste out.old j (drop at (nibbles s.now)) (2 * n) }
{
    let i = at / 2;
    for k in 0..n {
        let x = s[i + k];
        let p = j + 2 * k;
        out[p] = x / 16;
        out[p + 1] = x % 16;
    }
}

// Fetches count nibbles from a place on, one a byte of out.
pub fn fetch(s: &[u8], at: usize, count: usize, out: &mut [u8])
    requires { (at + count ≤ 2 * length s.now) × (at + count ≤ 2 ^ 32) × (count ≤ length out.old) }
    ensures { out.new ≡ take count (drop at (nibbles s.now)) ++ drop count out.old }
{
    if count == 0 {
        return;
    }
    let head = at % 2;
    let last = count - 1;
    fetch_bytes(s, at + head, out, head, (count - head) / 2);
    out[0] = nibble::packed_at(s, at);
    out[last] = nibble::packed_at(s, at + last);
}
