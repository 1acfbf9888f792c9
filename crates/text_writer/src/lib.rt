// The ship text of attachment 4: the nibbles of a row of symbols.
#![tactic(auto)]

ghost use Rattle.std.specs.Prelude.{◌≡◌, ◌&&◌, ◌+◌, ◌-◌, ◌*◌, ◌/◌, ◌%◌, ◌≤◌, ◌<◌, ◌^◌, length, set, leb};
ghost use Rattle.std.specs.List.{list_all, zip};
ghost use Rattle.std.proofs.lemmas.List.Edits.{sets};
ghost use Rattle.format.specs.Order.{all_marks};
ghost use Rattle.format.specs.ShipText.{code_nibbles, char_table, symbol_of, symbols_in, admitted, all_admitted, fulls, rest, space_run};
ghost use Rattle.laws.proofs.ShipText.{waiting};
ghost use Rattle.characters.specs.Table.{Formed, nibbles_by};
ghost use Rattle.text_writer.specs.Pieces.{piece_by};
ghost use Rattle.text_writer.specs.Answers.{Writes};

use format::Refusal;

// The most nibbles that a text may take.
const LONGEST: usize = 255;

// Writes a nibble, unless its place is behind the end.
fn put(out: &mut [u8], at: usize, n: u8)
    ensures { out.new ≡ set out.old at n }
{
    if at < out.len() {
        out[at] = n;
    }
}

// Writes 11,15 so many times.
fn put_fulls(out: &mut [u8], at: usize, k: usize)
    requires { at + 2 * k < 2 ^ 64 }
    ensures { out.new ≡ sets out.old at (fulls k) }
{
    for i in 0..k {
        put(out, at + 2 * i, 11);
        put(out, at + 2 * i + 1, 15);
    }
}

// Writes fewer than 18 spaces, and gives the place behind them.
fn put_rest(out: &mut [u8], at: usize, r: usize) -> usize
    requires { (at < 2 ^ 63) × (r < 18) }
    ensures { (result ≡ at + length (rest r)) × (out.new ≡ sets out.old at (rest r)) }
{
    match r {
        0 => at,
        1 => {
            put(out, at, 10);
            at + 1
        }
        2 => {
            put(out, at, 10);
            put(out, at + 1, 10);
            at + 2
        }
        _ => {
            put(out, at, 11);
            put(out, at + 1, (r - 3) as u8);
            at + 2
        }
    }
}

// Writes a run of spaces, and gives the place behind it.
fn put_run(out: &mut [u8], at: usize, s: usize) -> usize
    requires { (at ≤ 255) × (s < 2 ^ 63) }
    ensures { (result ≡ at + length (space_run s)) × (out.new ≡ sets out.old at (space_run s)) }
{
    let k = s / 18;
    put_fulls(out, at, k);
    put_rest(out, at + 2 * k, s % 18)
}

// Writes the nibbles of an entry if they fit, and gives the place behind them. Of one nibble the second store is the one that stays.
fn put_entry(out: &mut [u8], at: usize, w: u16) -> usize
    requires { (at < 2 ^ 63 + 256) × (w / 4096 ≡ length (code_nibbles (w % 4096))) }
    ensures { (result ≡ at + length (code_nibbles (w % 4096))) × (result ≤ length out.old → out.new ≡ sets out.old at (code_nibbles (w % 4096))) }
{
    let e = at + (w / 4096) as usize;
    if out.len() < e {
        return e;
    }
    if w < 0x3000 {
        out[at] = (w / 16 % 16) as u8;
        out[e - 1] = (w % 16) as u8;
        return e;
    }
    out[at] = (w / 256 % 16) as u8;
    out[at + 1] = (w / 16 % 16) as u8;
    out[at + 2] = (w % 16) as u8;
    e
}

// The place behind what is written.
#[derive(Clone, Copy, Debug, PartialEq, Eq)]
struct Placed {
    at: usize,
    // The spaces that wait, and one: the compiler takes a count of 0 for the rare case.
    next: usize,
}

// A table of the characters that is lent, whichever it is.
#[derive(Clone, Copy)]
struct Codes<'a> {
    table: &'a [u16],
    ghost formed: { Formed table.now },
}

// A symbol is passed as its byte and its mark: so the two slices have them.
impl Codes<'_> {
    // The entry of a symbol: a plain one has that of the table, an original one 15 and its byte.
    fn entry_of(self, byte: u8, origin: u8) -> u16
        ensures { (result / 4096 ≡ length (code_nibbles (result % 4096)))
            × (code_nibbles (result % 4096) ≡ nibbles_by self.entry.table.now (symbol_of byte origin)) }
    {
        if origin == 0 {
            return self.table[byte as usize];
        }
        0x3f00 + byte as u16
    }

    // Takes a symbol of the text: gives the next place, and the spaces that wait then.
    fn put_symbol(self, out: &mut [u8], placed: Placed, byte: u8, origin: u8) -> Placed
        requires { (placed.at ≤ 255) × (1 ≤ placed.next) × (placed.next ≤ 2 ^ 63) }
        ensures { (result.at ≡ placed.at + length (piece_by self.entry.table.now (placed.next - 1) (symbol_of byte origin)))
            × (result.next ≡ waiting (placed.next - 1) (symbol_of byte origin) + 1)
            × (result.at ≤ length out.old
            → out.new ≡ sets out.old placed.at (piece_by self.entry.table.now (placed.next - 1) (symbol_of byte origin))) }
    {
        let Placed { at, next } = placed;
        if byte == 32 {
            if origin == 0 {
                return Placed { at, next: next + 1 };
            }
        }
        let entry = self.entry_of(byte, origin);
        if next == 1 {
            let end = put_entry(out, at, entry);
            return Placed { at: end, next: 1 };
        }
        let start = put_run(out, at, next - 1);
        let end = put_entry(out, start, entry);
        Placed { at: end, next: 1 }
    }
}

// Bytes, and as many marks of origin.
#[derive(Clone, Copy)]
struct Symbols<'a> {
    bytes: &'a [u8],
    origins: &'a [u8],
    ghost even: { length bytes.now ≡ length origins.now },
}

// The table of the characters.
#[derive(Clone, Copy)]
struct Characters<'a> {
    codes: Codes<'a>,
    ghost whole: { codes.table.now ≡ char_table },
}

impl Characters<'_> {
    // Whether a text may hold a symbol: a plain one where its entry has under 3 nibbles.
    fn admits(self, byte: u8, origin: u8) -> bool
        ensures { result ≡ leb origin 1 && admitted (symbol_of byte origin) }
    {
        if origin == 0 {
            return self.codes.table[byte as usize] < 0x3000;
        }
        origin == 1
    }

    // Whether a text may hold all of the symbols; every one is looked at, up to the first that it may not hold.
    fn all_admitted(self, symbols: Symbols) -> bool
        ensures { result ≡ list_all (λ p. leb p.1 1 && admitted (symbol_of p.0 p.1)) (zip symbols.entry.bytes.now symbols.entry.origins.now) }
    {
        symbols
            .bytes
            .iter()
            .zip(symbols.origins)
            .all(|(byte, origin)| self.admits(*byte, *origin))
    }

    // Writes into 255 bytes, and stops where they are too few.
    fn put_text(self, symbols: Symbols, out: &mut [u8]) -> Result<usize, Refusal>
        requires { length out.old ≡ 255 }
        ensures { Writes symbols.entry.bytes.now symbols.entry.origins.now out.old out.new result }
    {
        if !self.all_admitted(symbols) {
            return Err(Refusal::Content);
        }
        let mut placed = Placed { at: 0, next: 1 };
        for (byte, origin) in symbols.bytes.iter().zip(symbols.origins) {
            placed = self.codes.put_symbol(out, placed, *byte, *origin);
            if LONGEST < placed.at {
                return Err(Refusal::Length);
            }
        }
        Ok(placed.at)
    }
}

// Writes the nibbles of symbols, one a byte, and gives how many; content where no text may hold one of the symbols, length
// where they are too many.
pub fn write(t: &[u8], origins: &[u8], out: &mut [u8; 255]) -> Result<usize, Refusal>
    requires { length t.now ≡ length origins.now }
    ensures { Writes t.now origins.now out.old out.new result }
{
    let table = character_table::table();
    let characters = Characters {
        codes: Codes { table: &table },
    };
    characters.put_text(Symbols { bytes: t, origins }, out)
}
