// A library's own table of permitted flags: the one that holds before any is loaded, and loading.
#![tactic(auto)]

ghost use Rattle.std.specs.Prelude.{◌≡◌, ◌==◌, ◌&&◌, length};
ghost use Rattle.format.specs.Flags.{all_yes};
ghost use Rattle.format.specs.Order.{all_marks};
ghost use Rattle.format.specs.Loading.{table_of, some_yes, every_row, load_answer, in_force};
ghost use Rattle.flag_table.specs.Answers.{loading_answer};
ghost use Rattle.flag_table.specs.Claims.{AnyValue, RowByRow};

use format::{FlagTable, Refusal};

// The table before any is loaded: every flag may have every value.
#[tactic(auto, using(crate::proofs::Tables::any_value), unfolding(format::specs::Flags::all_yes))]
pub fn all_yes() -> FlagTable
    ensures { (result ≡ all_yes) × AnyValue result }
{
    [[1u8; 10]; 14]
}

// ---- a table that is lent row after row, a byte a mark

// Whether each byte is 0 or 1: the bits of all of them are joined, and looked at once.
fn all_marks(lent: &[u8]) -> bool
    ensures { result ≡ all_marks lent.now }
{
    lent.iter().fold(0, |joined, mark| joined | *mark) <= 1
}

// Whether a row has a yes.
fn some_yes(row: &[u8]) -> bool
    ensures { result ≡ some_yes row.now }
{
    row.iter().any(|mark| *mark == 1)
}

// Whether every row has one.
fn every_row(lent: &[u8]) -> bool
    requires { length lent.now ≡ 140 }
    ensures { result ≡ every_row (table_of lent.now) }
{
    let (rows, _) = lent.as_chunks::<10>();
    rows.iter().all(|row| some_yes(row))
}

// Whether a table may be loaded.
fn loadable(lent: &[u8]) -> bool
    ensures { result ≡ (length lent.now == 140 && (all_marks lent.now && every_row (table_of lent.now))) }
{
    lent.len() == 140 && all_marks(lent) && every_row(lent)
}

// The table that is lent.
fn rows(lent: &[u8]) -> FlagTable
    requires { length lent.now ≡ 140 }
    ensures { result ≡ table_of lent.now }
{
    let (rows, _) = lent.as_chunks();
    *rows.first_chunk().unwrap()
}

// ---- loading

// Judges a table that is lent.
#[tactic(auto, using(crate::proofs::Tables::answer_is))]
pub fn judge(lent: &[u8]) -> Result<(), Refusal>
    ensures { loading_answer result ≡ load_answer lent.now }
{
    if loadable(lent) {
        Ok(())
    } else {
        Err(Refusal::Table)
    }
}

// The table in force after loading: the lent one, or where that is refused the former one.
#[tactic(auto, using(crate::proofs::Tables::force_is, crate::proofs::Tables::row_by_row))]
pub fn load(lent: &[u8], former: FlagTable) -> FlagTable
    ensures { (result ≡ in_force former lent.now) × RowByRow lent.now }
{
    if loadable(lent) { rows(lent) } else { former }
}
