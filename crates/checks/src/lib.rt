// The fields of a card checked, and their checksum worked out: in five words of eight bytes, all fields of a word at once.
#![tactic(auto)]

ghost use Rattle.std.specs.Prelude.{◌≡◌, ◌+◌, ◌%◌, ◌≤◌, ◌<◌, length};
ghost use Rattle.std.specs.Int.Bits.{bit_and, bit_xor};
ghost use Rattle.format.specs.Reply.{by_number};
ghost use Rattle.checks.specs.Answers.{card_check};
ghost use Rattle.checks.specs.Parts.{AllPassed, summed, at_place};
ghost use Rattle.checks.specs.Walk.{code_check};

use card::Field;
use format::{Coded, Refusal};

// ---- the check: of every other field of a word at once, so that what is added to one carries into a bit that was masked out

// The carry bits of the fields that a mask keeps and whose sum with what is added carries.
fn above(w: u64, mask: u64, add: u64, carry: u64) -> u64
    requires { mask + add < 18446744073709551616 }
    ensures { result ≡ bit_and (bit_and w mask + add) carry }
{
    ((w & mask) + add) & carry
}

// The carry bits of the fields that a mask keeps and that are 0.
fn lacking(w: u64, mask: u64, carry: u64) -> u64
    requires { mask + mask < 18446744073709551616 }
    ensures { result ≡ bit_xor (bit_and (bit_and w mask + mask) carry) carry }
{
    above(w, mask, mask, carry) ^ carry
}

// The fields in five words of eight bytes: 1 to 7, 8 to 19, 20 to 28, 29 to 38, 39 to 46, each whole in one word with a bit above
// it.
#[derive(Clone, Copy)]
struct FieldWords {
    a: u64,
    b: u64,
    c: u64,
    d: u64,
    e: u64,
}

impl FieldWords {
    // 0 only where no field is above its highest and no required one is 0.
    fn faults(self) -> u64
        ensures { result ≡ 0 → AllPassed self.a self.b self.c self.d self.e }
    {
        let FieldWords { a, b, c, d, e } = self;
        let t = above(a, 0xffc03c1f000ffe, 0x5dc00c070001ec, 0x100004020001000); // BOX10 MONTH HOUR Y
        let t = t | above(a, 0x3fc3e0fff000, 0x1ef000, 0x400401000000); // YEAR DAY X
        let t = t | above(b, 0x3ff00f39ce00f0, 0x17007094200b0, 0x40001042100100); // CD ST DS TC DI WI
        let t = t | above(b, 0x1c00ff0c631ff00, 0xc0000000009500, 0x200100108420000); // XYI SID QI DC PB D
        let t = t | above(c, 0x30fe1e003c000, 0x360a0024000, 0x4100200040000); // VI PW W2 TI
        let t = t | above(c, 0xffcf01e1ffc3ff8, 0x500a00000180, 0x1001002020004000); // W VB W1 P A
        let t = t | above(d, 0x7ff001ffc3c3cf0, 0x300000c0141040, 0x800002000404100); // WB S C CL H
        let t = t | above(d, 0xffe003c3c30f, 0x60003014104, 0x1000004040410); // DPT BI NH HI CM
        let t = t | above(e, 0xf03e03f07f0000, 0x400001801b0000, 0x100400400800000); // CH WP SD SH
        let t = t | above(e, 0xfc1fc0f80c000, 0x6006c00004000, 0x10020010010000); // WD WH SP A6
        let t = t | lacking(a, 0xffc03c00000ffe, 0x100004000001000); // BOX10 MONTH Y
        t | lacking(a, 0x3fc000fff000, 0x400001000000) // YEAR X
    }

    // The bits that the masks keep, added.
    fn kept(self, a: u64, b: u64, c: u64, d: u64, e: u64) -> u64
        requires { a + b + (c + (d + e)) < 1152921504606846976 }
        ensures { (result ≡ bit_and self.a a + bit_and self.b b + (bit_and self.c c + (bit_and self.d d + bit_and self.e e)))
            × (result ≤ a + b + (c + (d + e))) }
    {
        (self.a & a) + (self.b & b) + ((self.c & c) + ((self.d & d) + (self.e & e)))
    }

    // The checksum: modulo 255 a number does not change by a factor of 256, so fields at places that are equal modulo 8 are summed
    // where they stand.
    fn checksum(self) -> u64
        ensures { result ≡ summed 8 (at_place self.a self.b self.c self.d self.e) % 255 }
    {
        let t = self.kept(
            0x1f000000,
            0xf0001ff00,
            0x3000000000000,
            0x7ff00000000030f,
            0x7f0000,
        );
        let t = t + self.kept(0xffe, 0x60e0000, 0x1e00000000, 0, 0x3e0000000000) / 2;
        let t = t
            + self.kept(
                0x3c00000000,
                0,
                0xffc00001ffc0000,
                0x1ffc3c3c00,
                0x1fc00000000,
            ) / 4;
        let t = t + self.kept(0, 0x38000000, 0x3ff8, 0, 0) / 8;
        let t = t
            + self.kept(
                0xfff000,
                0x3ffff0003000f0,
                0xf00000000000,
                0xf0,
                0xf00003f0000000,
            ) / 16;
        let t = t + self.kept(0x3e0000000, 0, 0xfe1e0000000, 0xffe000000000, 0) / 32;
        let t = t
            + self.kept(
                0xffffc000000000,
                0x1c00000c1c00000,
                0x3c000,
                0x3c3c000,
                0xfc0000000c000,
            ) / 64;
        let t = t + self.kept(0, 0, 0, 0, 0xf800000) / 128;
        numbers::remainder(t)
    }
}

// ---- the walk, field after field

// Refuses a coded number of a field: above the highest, or missing where the field is required.
fn refusal(field: Field, code: Coded) -> Result<(), Refusal>
    ensures { by_number result ≡ code_check field.number code.0 }
{
    if field.highest() < code.0 {
        return Err(Refusal::Code(field.number));
    }
    if code.0 == 0 && field.is_required() {
        return Err(Refusal::Missing(field.number));
    }
    Ok(())
}

// Checks field after field.
fn walk(buffer: &[u8]) -> Result<u64, Refusal>
    requires { 38 ≤ length buffer.now }
    ensures { by_number result ≡ card_check buffer.now }
{
    let mut sum = 0;
    for number in 1..=46 {
        let field = Field::at(number);
        let code = field.code(buffer);
        refusal(field, code)?;
        sum += u64::from(code.0);
    }
    Ok(numbers::remainder(sum))
}

// Checks the fields, and gives their checksum. Where there is a fault, the walk finds the first.
pub fn check(buffer: &[u8]) -> Result<u64, Refusal>
    requires { 38 ≤ length buffer.now }
    ensures { by_number result ≡ card_check buffer.now }
{
    let a = words::word(buffer, 1);
    let b = words::word(buffer, 8);
    let c = words::word(buffer, 15);
    let d = words::word(buffer, 22);
    let e = words::word(buffer, 29);
    let fields = FieldWords { a, b, c, d, e };
    if fields.faults() == 0 {
        return Ok(fields.checksum());
    }
    walk(buffer)
}
