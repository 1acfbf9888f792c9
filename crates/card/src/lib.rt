// The card field by field: read and written; a field's coded number and its scaled value.
//
// That a buffer holds a card, 38 bytes, stands at each function, and in no type of a card: what each that writes promises,
// `Carded`, speaks of the whole buffer, whose front the card is.
#![tactic(auto)]

ghost use Rattle.std.specs.Prelude.{◌≡◌, true, false, ◌+◌, ◌-◌, ◌*◌, ◌/◌, ◌%◌, ◌≤◌, ◌<◌, ◌^◌, length, get_or, set, eqb, MatchResult};
ghost use Rattle.format.specs.Bits.{offset};
ghost use Rattle.format.specs.Field.{field_at, is_field, required, scaled_of};
ghost use Rattle.format.specs.Observation.{widths};
ghost use Rattle.format.specs.Report.{numbers_of, rptin_of, codes_of, checksum_of, count_of};
ghost use Rattle.card.specs.Answers.{coding_of, Carded};
ghost use Rattle.card.specs.Rows.{rows, base_of, field_in, Row, RowAt};

use format::{Coded, Refusal, Scaled};

// What the code knows of each field, as one number: in digits of 16, the bit at which it begins (3), its bits (1), its highest
// coded number (3), its base plus 1000 (4).
pub const BOX10: u64 = 0x010_a_288_03e8;

pub const YEAR: u64 = 0x01a_8_0ff_0aef;

pub const MONTH: u64 = 0x022_4_00c_03e8;

pub const DAY: u64 = 0x026_5_01f_03e8;

pub const HOUR: u64 = 0x02b_5_018_03e7;

pub const X: u64 = 0x030_c_e10_03e7;

pub const Y: u64 = 0x03c_b_709_0063;

pub const XYI: u64 = 0x047_3_004_03e7;

pub const CD: u64 = 0x04a_a_3e8_03e7;

pub const SID: u64 = 0x054_8_0ff_03e7;

pub const ST: u64 = 0x05c_4_008_03e7;

pub const QI: u64 = 0x060_2_003_03e7;

pub const DS: u64 = 0x062_3_006_03e7;

pub const DC: u64 = 0x065_2_003_03e7;

pub const TC: u64 = 0x067_3_002_03e7;

pub const PB: u64 = 0x06a_2_003_03e7;

pub const DI: u64 = 0x06c_3_006_03e7;

pub const D: u64 = 0x06f_9_16a_03e8;

pub const WI: u64 = 0x078_4_004_03e7;

pub const W: u64 = 0x07c_a_3ff_03e7;

pub const VI: u64 = 0x086_2_003_03e7;

pub const VB: u64 = 0x088_4_00a_0441;

pub const PW: u64 = 0x08c_7_064_03e7;

pub const W1: u64 = 0x093_4_00a_03e7;

pub const W2: u64 = 0x097_4_00a_03e7;

pub const P: u64 = 0x09b_b_7ff_25e3;

pub const TI: u64 = 0x0a6_4_006_03e7;

pub const A: u64 = 0x0aa_b_7cf_0000;

pub const WB: u64 = 0x0b5_b_7cf_0000;

pub const DPT: u64 = 0x0c0_b_7cf_0000;

pub const S: u64 = 0x0cb_b_7cf_0000;

pub const BI: u64 = 0x0d6_4_003_03e7;

pub const C: u64 = 0x0da_4_00a_03e7;

pub const NH: u64 = 0x0de_4_00a_03e7;

pub const CL: u64 = 0x0e2_4_00b_03e7;

pub const HI: u64 = 0x0e6_2_002_03e7;

pub const H: u64 = 0x0e8_4_00b_03e7;

pub const CM: u64 = 0x0ec_4_00b_03e7;

pub const CH: u64 = 0x0f0_4_00b_03e7;

pub const WD: u64 = 0x0f4_6_027_03e7;

pub const WP: u64 = 0x0fa_5_01f_03e7;

pub const WH: u64 = 0x0ff_7_064_03e7;

pub const SD: u64 = 0x106_6_027_03e7;

pub const SP: u64 = 0x10c_5_01f_03e7;

pub const SH: u64 = 0x111_7_064_03e7;

pub const A6: u64 = 0x118_2_002_03e7;

// The row of field k.
fn row(k: usize) -> u64
    requires { (1 ≤ k) × (k ≤ 46) }
    ensures { result ≡ get_or rows k 0 }
{
    match k {
        1 => BOX10,
        2 => YEAR,
        3 => MONTH,
        4 => DAY,
        5 => HOUR,
        6 => X,
        7 => Y,
        8 => XYI,
        9 => CD,
        10 => SID,
        11 => ST,
        12 => QI,
        13 => DS,
        14 => DC,
        15 => TC,
        16 => PB,
        17 => DI,
        18 => D,
        19 => WI,
        20 => W,
        21 => VI,
        22 => VB,
        23 => PW,
        24 => W1,
        25 => W2,
        26 => P,
        27 => TI,
        28 => A,
        29 => WB,
        30 => DPT,
        31 => S,
        32 => BI,
        33 => C,
        34 => NH,
        35 => CL,
        36 => HI,
        37 => H,
        38 => CM,
        39 => CH,
        40 => WD,
        41 => WP,
        42 => WH,
        43 => SD,
        44 => SP,
        45 => SH,
        _ => A6,
    }
}

// The highest coded number of the field that a row is of.
fn highest_in(row: u64) -> u16
    ensures { result ≡ row / 65536 % 4096 }
{
    (row / 65536 % 4096) as u16
}

// Its base.
fn base(row: u64) -> i64
    ensures { result ≡ base_of row }
{
    (row % 65536) as i64 - 1000
}

// The scaled value of a coded number of the field that a row is of.
pub fn scaled_in(row: u64, code: Coded) -> Scaled
    ensures { result ≡ scaled_of (field_in row) code }
{
    Scaled(code.0 as i64 + base(row))
}

// The coded number of a scaled value of the field that a row is of, none where the value is out of range.
pub fn coded_in(row: u64, value: Scaled) -> Option<Coded>
    ensures { result ≡ coding_of (field_in row) value }
{
    let low = base(row);
    let high = low + highest_in(row) as i64;
    let z = value.0;
    if z < low + 1 || high < z {
        return None;
    }
    Some(Coded((z - low) as u16))
}

// A field of the card: its number, 1 to 46, and its row.
#[derive(Clone, Copy)]
pub struct Field {
    pub number: usize,
    row: u64,
    pub ghost low: { 1 ≤ number },
    pub ghost high: { number ≤ 46 },
    pub ghost row_of: { Row number row },
}

impl Field {
    pub fn at(number: usize) -> Field
        requires { (1 ≤ number) × (number ≤ 46) }
        ensures { result.number ≡ number }
    {
        Field {
            number,
            row: row(number),
        }
    }

    // The field of a number, which may be none.
    pub fn numbered(number: usize) -> Result<Field, Refusal>
        ensures { MatchResult result (λ field. field.number ≡ number) (λ refusal. (refusal ≡ Refusal.Number) × (is_field number ≡ false)) }
    {
        if !(1..=46).contains(&number) {
            return Err(Refusal::Number);
        }
        Ok(Field::at(number))
    }

    // The field at a place, from 0, by its row. The runs over all 46 fields go over rows, so that each is a constant: a constant of
    // type Field owes its facts wherever it stands.
    pub fn of_row(place: usize, row: u64) -> Field
        requires { RowAt place row }
        ensures { result.number ≡ place + 1 }
    {
        Field {
            number: place + 1,
            row,
        }
    }

    pub fn row(self) -> u64
        ensures { Row self.number result }
    {
        self.row
    }

    // The bit at which it begins.
    fn place(self) -> usize
        ensures { result ≡ offset widths self.number }
    {
        (self.row / 4294967296) as usize
    }

    // Its bits.
    fn width(self) -> usize
        ensures { result ≡ get_or widths self.number 0 }
    {
        (self.row / 268435456 % 16) as usize
    }

    // Its highest coded number.
    pub fn highest(self) -> u16
        ensures { result ≡ (field_at self.number).highest }
    {
        highest_in(self.row)
    }

    pub fn is_required(self) -> bool
        ensures { result ≡ required self.number }
    {
        is_required(self.number)
    }

    // Its coded number on a card.
    pub fn code(self, buffer: &[u8]) -> Coded
        requires { 38 ≤ length buffer.now }
        ensures { result.0 ≡ get_or (codes_of buffer.now) (self.number - 1) 0 }
    {
        Coded(bits::read(buffer, self.place(), self.width()) as u16)
    }

    // Writes a coded number to it.
    pub fn store(self, buffer: &mut [u8], code: Coded)
        requires { (38 ≤ length buffer.old) × (code.0 ≤ (field_at self.number).highest) }
        ensures { Carded buffer.old buffer.new (set (numbers_of buffer.old) self.number code.0) }
    {
        bits::write(buffer, self.place(), self.width(), u64::from(code.0));
    }

    // The scaled value of a coded number.
    pub fn scaled(self, code: Coded) -> Scaled
        ensures { result ≡ scaled_of (field_at self.number) code }
    {
        scaled_in(self.row, code)
    }

    // The coded number of a scaled value, none where the value is out of range.
    pub fn coded(self, value: Scaled) -> Option<Coded>
        ensures { result ≡ coding_of (field_at self.number) value }
    {
        coded_in(self.row, value)
    }
}

// Whether a number is that of a required field.
#[tactic(auto, using(crate::proofs::Required::required_low, crate::proofs::Required::required_high, crate::proofs::Required::not_required))]
pub fn is_required(k: usize) -> bool
    ensures { result ≡ required k }
{
    matches!(k, 1 | 2 | 3 | 6 | 7)
}

// Whether a coded number is that of a missing field.
pub fn is_missing(c: Coded) -> bool
    ensures { result ≡ eqb c.0 0 }
{
    c.0 == 0
}

pub fn rptin(s: &[u8]) -> u16
    requires { 38 ≤ length s.now }
    ensures { result ≡ rptin_of s.now }
{
    bits::read(s, 0, 16) as u16
}

pub fn checksum(s: &[u8]) -> u64
    requires { 38 ≤ length s.now }
    ensures { (result ≡ checksum_of s.now) × (result < 16384) }
{
    bits::read(s, 282, 14)
}

// The number of attachments: the high half of byte 37.
pub fn count(s: &[u8]) -> usize
    requires { 38 ≤ length s.now }
    ensures { (result ≡ count_of s.now) × (result < 16) }
{
    usize::from(s[37] / 16)
}

// Writes the checksum of a sum of coded fields.
pub fn set_checksum(s: &mut [u8], sum: u64)
    requires { 38 ≤ length s.old }
    ensures { Carded s.old s.new (set (numbers_of s.old) 47 (sum % 255)) }
{
    bits::write(s, 282, 14, u64::from(numbers::short_remainder(sum)));
}

pub fn set_count(s: &mut [u8], n: usize)
    requires { (38 ≤ length s.old) × (n < 16) }
    ensures { Carded s.old s.new (set (numbers_of s.old) 48 n) }
{
    s[37] = n as u8 * 16 + s[37] % 16;
}

pub fn set_rptin(s: &mut [u8], v: u16)
    requires { 38 ≤ length s.old }
    ensures { Carded s.old s.new (set (numbers_of s.old) 0 v) }
{
    bits::write(s, 0, 16, u64::from(v));
}
