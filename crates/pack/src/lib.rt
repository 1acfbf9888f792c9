// Packs values and a tail to a report.
#![tactic(auto)]

ghost use Rattle.std.specs.Prelude.{◌≡◌, false, cond, ◌*◌, ◌≤◌, ◌^◌, length, set};
ghost use Rattle.format.specs.Nibbles.{nibbles, odd};
ghost use Rattle.format.specs.Reply.{by_number};
ghost use Rattle.format.specs.Whole.{bit_outside, count_in};
ghost use Rattle.format.specs.Whole as spec;
ghost use Rattle.pack.specs.Answers.{pack_answer};
ghost use Rattle.pack.specs.Steps.{fields_checked, TailPassesBySome, Packs};

use card::Field;
use format::{FlagTable, Refusal};
use write_values::{Lent, Passed};

// The nibbles of the card: the tail is laid behind them.
const CARD: usize = 75;

// The bits of a presence word: bit k is field k, and bit 0 is none.
const BITS: u32 = 47;

// Checks field after field.
fn walk_fields(lent: Lent) -> Result<(), Refusal>
    ensures { by_number result ≡ fields_checked lent.entry.values.now lent.entry.word }
{
    for number in 1..=46 {
        lent.refusal(Field::at(number))?;
    }
    Ok(())
}

// Checks the fields in ascending order: straight lines tell whether any is refused, and a walk then finds the first.
fn check_fields(lent: Lent) -> Result<(), Refusal>
    ensures { by_number result ≡ fields_checked lent.entry.values.now lent.entry.word }
{
    if lent.all_pass() {
        return Ok(());
    }
    walk_fields(lent)
}

// Clears the nibble at a place, if the place is odd.
fn pad(buffer: &mut [u8], at: usize)
    requires { (at ≤ 2 * length buffer.old) × (at ≤ 2 ^ 32) }
    ensures { (nibbles buffer.new ≡ cond (odd at) (set (nibbles buffer.old) at 0) (nibbles buffer.old)) × (length buffer.new ≡ length buffer.old) }
{
    if at % 2 == 1 {
        nibble_edit::put(buffer, at, 0);
    }
}

// What is packed.
#[derive(Clone, Copy)]
struct Given<'v, 't> {
    passed: Passed<'v>,
    rptin: u16,
    tail: &'t [u8],
    ghost inside: { bit_outside passed.lent.word ≡ false },
}

impl Given<'_, '_> {
    // Writes the report of what has passed, if the output is long enough.
    fn write(self, count: usize, out: &mut [u8]) -> Result<usize, Refusal>
        requires { TailPassesBySome self.passed.lent.values.now self.passed.lent.word self.tail.now × (count ≡ count_in self.tail.now) }
        ensures { Packs self.entry.passed.lent.values.now self.entry.passed.lent.word self.entry.rptin self.entry.tail.now out.old (record { answer = pack_answer result; out = out.new }) }
    {
        let end = CARD + self.tail.len();
        let size = end / 2 + end % 2;
        if out.len() < size {
            return Err(Refusal::Room);
        }
        nibble_copy::lay(out, CARD, self.tail);
        pad(out, end);
        self.passed.write(out, self.rptin, count);
        Ok(size)
    }

    // Checks the tail, and writes the report.
    fn pack(self, out: &mut [u8], table: &FlagTable) -> Result<usize, Refusal>
        ensures { record { answer = pack_answer result; out = out.new } ≡ spec.pack table.now self.entry.passed.lent.values.now self.entry.passed.lent.word self.entry.rptin self.entry.tail.now out.old }
    {
        if !nibble::all_nibbles(self.tail) {
            return Err(Refusal::Content);
        }
        let count = tail::walk_tail(self.tail, table)?;
        self.write(count, out)
    }
}

// The report of the values whose bits are set in word, of rptin and of a tail, to the front of out.
pub fn pack(
    values: &[i64],
    word: u64,
    rptin: u16,
    tail: &[u8],
    out: &mut [u8],
    table: &FlagTable,
) -> Result<usize, Refusal>
    ensures { record { answer = pack_answer result; out = out.new } ≡ spec.pack table.now values.now word rptin tail.now out.old }
{
    if values.len() < 46 {
        return Err(Refusal::Room);
    }
    if word % 2 == 1 || word >> BITS != 0 {
        return Err(Refusal::Number);
    }
    let lent = Lent { values, word };
    check_fields(lent)?;
    let given = Given {
        passed: Passed { lent },
        rptin,
        tail,
    };
    given.pack(out, table)
}
