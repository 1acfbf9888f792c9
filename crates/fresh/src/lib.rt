// Starts a report of the five required values.
#![tactic(auto)]

ghost use Rattle.std.specs.Prelude.{◌≡◌, ◌+◌, ◌≤◌, length};
ghost use Rattle.format.specs.Reply.{by_number};
ghost use Rattle.format.specs.Whole as spec;
ghost use Rattle.card.specs.Answers.{Carded};
ghost use Rattle.fresh.specs.Answers.{fresh_answer};
ghost use Rattle.fresh.specs.Steps.{required_code, FiveFit, five_numbers, cleared};

use card::Field;
use format::{Coded, Refusal, Scaled};

// The numbers of the required fields.
const BOX10: usize = 1;

const YEAR: usize = 2;

const MONTH: usize = 3;

const X: usize = 6;

const Y: usize = 7;

// Their codes.
#[derive(Clone, Copy, Debug, PartialEq, Eq)]
struct Codes {
    box10: Coded,
    year: Coded,
    month: Coded,
    x: Coded,
    y: Coded,
}

impl Codes {
    fn sum(self) -> u64
        ensures { result ≡ self.box10.0 + self.year.0 + self.month.0 + self.x.0 + self.y.0 }
    {
        let Codes {
            box10,
            year,
            month,
            x,
            y,
        } = self;
        u64::from(box10.0)
            + u64::from(year.0)
            + u64::from(month.0)
            + u64::from(x.0)
            + u64::from(y.0)
    }
}

// The code of a value of a required field, which has to be in range.
fn required(number: usize, value: Scaled) -> Result<Coded, Refusal>
    requires { (1 ≤ number) × (number ≤ 46) }
    ensures { by_number result ≡ required_code number value }
{
    Field::at(number).coded(value).ok_or(Refusal::Value(number))
}

// Clears the first 38 bytes.
fn clear_card(out: &mut [u8])
    requires { 38 ≤ length out.old }
    ensures { out.new ≡ cleared out.old }
{
    out[..38].fill(0);
}

// Writes a card of these codes, all else 0, and sets the checksum.
#[inline(always)]
fn write_fresh(out: &mut [u8], codes: Codes)
    requires { (38 ≤ length out.old) × FiveFit codes }
    ensures { Carded (cleared out.old) out.new (five_numbers codes) }
{
    clear_card(out);
    Field::at(BOX10).store(out, codes.box10);
    Field::at(YEAR).store(out, codes.year);
    Field::at(MONTH).store(out, codes.month);
    Field::at(X).store(out, codes.x);
    Field::at(Y).store(out, codes.y);
    card::set_checksum(out, codes.sum());
}

// The report of these five values, all else missing, to the first 38 bytes of out.
pub fn fresh(
    box10: Scaled,
    year: Scaled,
    month: Scaled,
    x: Scaled,
    y: Scaled,
    out: &mut [u8],
) -> Result<(), Refusal>
    ensures { record { answer = fresh_answer result; out = out.new } ≡ spec.fresh box10 year month x y out.old }
{
    let codes = Codes {
        box10: required(BOX10, box10)?,
        year: required(YEAR, year)?,
        month: required(MONTH, month)?,
        x: required(X, x)?,
        y: required(Y, y)?,
    };
    if out.len() < 38 {
        return Err(Refusal::Room);
    }
    write_fresh(out, codes);
    Ok(())
}
