// The ship text of attachment 4: its codes, and its symbols read to two outputs.
#![tactic(auto)]

ghost use Rattle.std.specs.Prelude.{◌≡◌, true, map, Some, None, cond, eqb, ◌+◌, ◌-◌, ◌*◌, ◌≤◌, ◌<◌, ◌^◌, leb, length, get_or, take, drop, replicate};
ghost use Rattle.std.proofs.lemmas.List.Edits.{sets};
ghost use Rattle.format.specs.Nibbles.{nibbles};
ghost use Rattle.format.specs.ShipText.{pair_byte, byte_of, origin_of, text_valid, read_text};
ghost use Rattle.format.specs.Calls.{over};
ghost use Rattle.text_reader.specs.Answers.{Shortest};
ghost use Rattle.text_reader.specs.Pairs.{pair_rows};
ghost use Rattle.text_reader.specs.Codes.{mark, code, code_in, body};

// ---- a code

// For a pair's low nibble, eight bits for each high one from 12 on: the pair's byte.
fn pairs(n: u8) -> u64
    ensures { result ≡ get_or pair_rows n 0 }
{
    match n {
        0 => 0x00_7d_7b,
        1 => 0x2f_4a_41,
        2 => 0x53_4b_42,
        3 => 0x54_4c_43,
        4 => 0x55_4d_44,
        5 => 0x56_4e_45,
        6 => 0x57_4f_46,
        7 => 0x58_50_47,
        8 => 0x59_51_48,
        9 => 0x5a_52_49,
        10 => 0x00_2d_26,
        11 => 0x00_00_2b,
        _ => 0,
    }
}

// The byte of a pair, none where the pair is undefined.
fn pair_byte(z: u8, n: u8) -> Option<u8>
    requires { (12 ≤ z) × (z ≤ 14) }
    ensures { result ≡ cond (eqb (pair_byte z n) 0) None (Some (pair_byte z n)) }
{
    let shift = (z - 12) as u64 * 8;
    let byte = ((pairs(n) >> shift) % 256) as u8;
    if byte == 0 {
        return None;
    }
    Some(byte)
}

// Whether a symbol is a plain byte or an original one.
#[derive(Clone, Copy, Debug, PartialEq, Eq)]
pub enum Origin {
    Plain,
    Original,
}

impl Origin {
    // Its mark in a row of marks of origin.
    pub fn mark(self) -> u8
        ensures { result ≡ mark self }
    {
        match self {
            Origin::Plain => 0,
            Origin::Original => 1,
        }
    }
}

// How many nibbles, and the symbols that they stand for: so many times one byte of one origin.
#[derive(Clone, Copy, Debug, PartialEq, Eq)]
pub struct Code {
    pub nibbles: usize,
    pub count: usize,
    pub byte: u8,
    pub origin: Origin,
}

fn coded(nibbles: usize, count: usize, byte: u8, origin: Origin) -> Option<Code>
    ensures { result ≡ Some (code nibbles count byte origin) }
{
    Some(Code {
        nibbles,
        count,
        byte,
        origin,
    })
}

// The code at a place, none where none is whole before the end.
pub fn code_at(s: &[u8], at: usize, end: usize) -> Option<Code>
    requires { end ≤ 2 * length s.now }
    ensures { result ≡ code_in (take (end - at) (drop at (nibbles s.now))) }
{
    if end <= at {
        return None;
    }
    let n = nibble::packed_at(s, at);
    if n < 10 {
        return coded(1, 1, 48 + n, Origin::Plain);
    }
    if n == 10 {
        return coded(1, 1, 32, Origin::Plain);
    }
    if end - at < 2 {
        return None;
    }
    let m = nibble::packed_at(s, at + 1);
    if n == 11 {
        return coded(2, m as usize + 3, 32, Origin::Plain);
    }
    if n < 15 {
        let byte = pair_byte(n, m)?;
        return coded(2, 1, byte, Origin::Plain);
    }
    if end - at < 3 {
        return None;
    }
    let l = nibble::packed_at(s, at + 2);
    coded(3, 1, m * 16 + l, Origin::Original)
}

// ---- the symbols of a valid body

// Writes a byte so many times, from a place on. One byte, as most codes give, is a store alone, faster than a fill.
pub fn put_bytes(out: &mut [u8], at: usize, count: usize, b: u8)
    requires { at + count ≤ length out.old }
    ensures { out.new ≡ sets out.old at (replicate count b) }
{
    if count == 1 {
        out[at] = b;
        return;
    }
    out[at..at + count].fill(b);
}

// A valid body: so many nibbles of a report, from a place on.
#[derive(Clone, Copy)]
pub struct Body<'a> {
    pub report: &'a [u8],
    pub at: usize,
    pub len: usize,
    pub ghost inside: { at + len ≤ 2 * length report.now },
    pub ghost near: { at ≤ 2 ^ 32 },
    pub ghost short: { len ≤ 4096 },
    pub ghost valid: { text_valid (body report.now at len) ≡ true },
}

impl Body<'_> {
    ghost use Rattle.text_reader.specs.Content.{content};

    // How many there are.
    #[tactic(auto, using(crate::proofs::Bodies::reach_none, crate::proofs::Bodies::reach_more))]
    fn text_length(self) -> usize
        ensures { result ≡ length (read_text (content self.entry)) }
    {
        let end = self.at + self.len;
        let mut count = 0;
        let mut place = self.at;
        while let Some(code) = code_at(self.report, place, end) {
            count += code.count;
            place += code.nibbles;
        }
        count
    }

    // Whether there is room for them. Two nibbles give 18 symbols at most.
    #[tactic(auto, using(crate::proofs::Bodies::fits_all))]
    pub fn fits(self, room: usize) -> bool
        ensures { result ≡ leb (length (read_text (content self.entry))) room }
    {
        if 9 * self.len <= room {
            return true;
        }
        self.text_length() <= room
    }

    // Writes the bytes of the symbols and their marks of origin, and gives how many there are.
    pub fn read(self, out: &mut [u8], origins: &mut [u8]) -> usize
        requires { (length (read_text (content self)) ≤ length out.old) × (length (read_text (content self)) ≤ length origins.old) }
        ensures { (out.new ≡ over (map byte_of (read_text (content self.entry))) out.old)
            × (origins.new ≡ over (map origin_of (read_text (content self.entry))) origins.old)
            × (result ≡ length (read_text (content self.entry)))
            × Shortest (read_text (content self.entry)) (content self.entry) }
    {
        let end = self.at + self.len;
        let mut count = 0;
        let mut place = self.at;
        while let Some(code) = code_at(self.report, place, end) {
            put_bytes(out, count, code.count, code.byte);
            put_bytes(origins, count, code.count, code.origin.mark());
            count += code.count;
            place += code.nibbles;
        }
        count
    }
}
