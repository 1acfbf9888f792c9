// The costliest text of so many symbols.
#![tactic(auto)]

ghost use Rattle.std.specs.Prelude.{◌≡◌};
ghost use Rattle.format.specs.Calls.{done_by};
ghost use Rattle.format.specs.Reply.{answer_of};
ghost use Rattle.format.specs.Costliest.{costliest_refusal, CostliestLeaves};

use format::{Outcome, Refusal, Reply};
use text_reader::Origin;

// The most symbols: at three nibbles each they fill a content of 255.
const MOST: usize = 85;

// Of the original bytes any will do.
const BYTE: u8 = 65;

// Writes a text of m symbols that takes three nibbles a symbol: its bytes and its marks of origin.
pub fn costliest(m: usize, text: &mut [u8], origins: &mut [u8]) -> Reply
    ensures { (answer_of result ≡ done_by (costliest_refusal m text.old origins.old))
        × CostliestLeaves m text.old origins.old text.new origins.new }
{
    if MOST < m {
        return Err(Refusal::Value(0));
    }
    if text.len() < m {
        return Err(Refusal::Room);
    }
    if origins.len() < m {
        return Err(Refusal::Room);
    }
    text_reader::put_bytes(text, 0, m, BYTE);
    text_reader::put_bytes(origins, 0, m, Origin::Original.mark());
    Ok(Outcome::Nothing)
}
