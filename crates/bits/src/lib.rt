// A bit field within two adjacent bytes of a buffer. Bits are counted from the highest of byte 0 on; a field's highest bit comes first.
#![tactic(auto)]

ghost use Rattle.std.specs.Prelude.{◌≡◌, ◌+◌, ◌*◌, ◌/◌, ◌%◌, ◌≤◌, ◌<◌, ◌^◌, length, set};
ghost use Rattle.format.specs.Bits.{bits, bits_of, bit_field, splice};
ghost use Rattle.bits.specs.Window.{TwoBytes, FieldWritten, pair, patched};

// Two bytes as one number. Fields overlap in bytes: a load of both at once would wait for what was stored to one of them, so load
// and store go by bytes, which the compiler keeps in registers from one field to the next.
fn load(s: &[u8], i: usize) -> u64
    requires { i + 2 ≤ length s.now }
    ensures { (result ≡ pair s.now i) × (result < 65536) }
{
    u64::from(s[i]) * 256 + u64::from(s[i + 1])
}

// A number of 16 bits to two bytes.
fn store(s: &mut [u8], i: usize, n: u64)
    requires { (i + 2 ≤ length s.old) × (n < 65536) }
    ensures { s.new ≡ set (set s.old i (n / 256)) (i + 1) (n % 256) }
{
    let [high, low] = (n as u16).to_be_bytes();
    s[i] = high;
    s[i + 1] = low;
}

// The width bits of n above the z low ones.
fn cut(n: u64, z: usize, width: usize) -> u64
    requires { (z < 64) × (width < 64) }
    ensures { result ≡ n / 2 ^ z % 2 ^ width }
{
    (n >> z) % (1 << width)
}

// n with v in place of its width bits above the z low ones.
fn patch(n: u64, z: usize, width: usize, v: u64) -> u64
    requires { (n < 65536) × (width + z ≤ 16) × (v < 2 ^ width) }
    ensures { (result ≡ patched n z width v) × (result < 65536) }
{
    n - (cut(n, z, width) << z) + (v << z)
}

// The number in the field of width bits from bit `at` on.
pub fn read(s: &[u8], at: usize, width: usize) -> u64
    requires { TwoBytes (length s.now) at width }
    ensures { (result ≡ bit_field s.now at width) × (result < 65536) }
{
    cut(load(s, at / 8), 16 - at % 8 - width, width)
}

// Writes v to the field of width bits from bit `at` on.
pub fn write(s: &mut [u8], at: usize, width: usize, v: u64)
    requires two_bytes { TwoBytes (length s.old) at width }
    requires v_bound { v < 2 ^ width }
    ensures { (bits_of s.new ≡ splice (bits_of s.old) at (bits width v)) × (length s.new ≡ length s.old)
        × FieldWritten s.old s.new at width v }
{
    let i = at / 8;
    let n = patch(load(s, i), 16 - at % 8 - width, width, v);
    store(s, i, n);
}
