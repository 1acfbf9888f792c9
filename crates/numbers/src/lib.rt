// Small numbers: a byte widened, the larger and the lesser of two, a number between two ends, a remainder; and a word of 64 bits as a signed
// number in two's complement, and back.
#![tactic(auto)]

ghost use Rattle.std.specs.Prelude.{◌≡◌, ◌%◌, ◌<◌, max, min};
ghost use Rattle.format.specs.Order.{between};
ghost use Rattle.numbers.specs.Folding.{fold_once, folding};
ghost use Rattle.numbers.specs.Words.{signed, unsigned};

// A byte as a number.
pub fn wide(x: u8) -> u64
    ensures { (result ≡ x) × (result < 256) }
{
    u64::from(x)
}

// The larger of two numbers.
pub fn larger(a: usize, b: usize) -> usize
    ensures { result ≡ max a b }
{
    a.max(b)
}

// The lesser.
pub fn lesser(a: usize, b: usize) -> usize
    ensures { result ≡ min a b }
{
    a.min(b)
}

// Whether low ≤ x ≤ high.
pub fn within(low: usize, high: usize, x: usize) -> bool
    ensures { result ≡ between low high x }
{
    (low..=high).contains(&x)
}

// One turn of the folding.
#[tactic(auto, unfolding(crate::specs::Folding::fold_once))]
fn fold(n: u64) -> u64
    ensures { result ≡ fold_once n }
{
    n % 256 + n / 256
}

// The remainder by 255 of a number of 20 bits. Two turns leave at most 271, and from 255 on the folding takes 255 away.
#[tactic(auto, unfolding(crate::specs::Folding::fold_once))]
fn fold_short(n: u64) -> u64
    requires { n < 1048576 }
    ensures { (result ≡ n % 255) × (result < 255) }
{
    let x = fold(fold(n));
    if x < 255 {
        return x;
    }
    x - 255
}

// The remainder by 255, by folding. 2^32 and 2^16 have the remainder 1 as 256 does, so a number may be folded there first.
#[tactic(auto, using(crate::proofs::Folding::folding_remainder))]
pub fn remainder(n: u64) -> u64
    ensures { (result ≡ n % 255) × (result < 255) × (result ≡ folding n) }
{
    let x = n % 4294967296 + n / 4294967296;
    fold_short(x % 65536 + x / 65536)
}

// The same, quicker where the number has 20 bits, and as a byte.
#[tactic(auto, using(crate::proofs::Folding::folding_remainder))]
pub fn short_remainder(n: u64) -> u8
    ensures { (result ≡ n % 255) × (result < 255) × (result ≡ folding n) }
{
    if n < 1048576 {
        return fold_short(n) as u8;
    }
    remainder(n) as u8
}

#[tactic(auto, unfolding(crate::specs::Words::signed))]
pub fn signed_of(n: u64) -> i64
    ensures { result ≡ signed n }
{
    n.cast_signed()
}

#[tactic(auto, unfolding(crate::specs::Words::unsigned))]
pub fn unsigned_of(v: i64) -> u64
    ensures { result ≡ unsigned v }
{
    v.cast_unsigned()
}
