// The lister's lines: those of the present fields, of CK and of AC; or that of a refusal.
#![tactic(auto)]

ghost use Rattle.std.specs.Prelude.{ℕ, ◌≡◌, List, [], ◌∷◌, ◌++◌, ◌≤◌, ◌<◌, length, take, OnOk, IfSome};
ghost use Rattle.std.specs.Io.KnownBytes.{Appends};
ghost use Rattle.format.specs.Field.{field_at, entry_of};
ghost use Rattle.format.specs.Calls.{over};
ghost use Rattle.format.specs.Flags.{all_yes};
ghost use Rattle.format.specs.Report.{judge};
ghost use Rattle.format.specs.Lister.{decimal, signed_decimal, line, field_line, listing_of, listing};
ghost use Rattle.lister_lines.specs.Lines.{Room, Puts, value_lines, lettered_lines, refusal_line};

use card::Field;
use format::Coded;
use std::io;
use std::io::{Read, Write};
use std::marker::Model;

// How many bytes of an input count.
const COUNTING: usize = 1856;

// The lines that are put so far, which are ASCII: the front of the room.
#[derive(Drop)]
struct Listing {
    room: [u8; 512],
    filled: usize,
}

impl Model for Listing {
    ghost Value = { List ℕ };

    ghost view = { λ lines. take lines.filled lines.room };

    ghost invariant = { λ lines. lines.filled ≤ 512 };
}

impl Listing {
    fn new() -> Self
        ensures { result ≡ [] }
    {
        Listing {
            room: [0; 512],
            filled: 0,
        }
    }

    fn as_bytes(&self) -> &[u8]
        ensures bytes { result.now ≡ self.now }
        ensures bound { length result.now ≤ 512 }
    {
        &self.room[..self.filled]
    }

    fn push(&mut self, byte: u8)
        requires { Room self.old (byte ∷ []) }
        ensures { Puts self.old self.new (byte ∷ []) }
    {
        self.room[self.filled] = byte;
        self.filled += 1;
    }

    fn push_str(&mut self, text: &str)
        requires { Room self.old text.now }
        ensures { Puts self.old self.new text.now }
    {
        let end = self.filled + text.len();
        self.room[self.filled..end].copy_from_slice(text.as_bytes());
        self.filled = end;
    }
}

fn put_decimal(lines: &mut Listing, number: u64)
    requires { Room lines.old (decimal number) }
    ensures { Puts lines.old lines.new (decimal number) }
{
    if number < 10 {
        lines.push(b'0' + number as u8);
        return;
    }
    put_decimal(lines, number / 10);
    lines.push(b'0' + (number % 10) as u8);
}

// A number and what stands behind it.
fn put_number(lines: &mut Listing, number: u64, behind: &str)
    requires { Room lines.old (decimal number ++ behind.now) }
    ensures { Puts lines.old lines.new (decimal number ++ behind.now) }
{
    put_decimal(lines, number);
    lines.push_str(behind);
}

// A signed number and the end of its line.
fn put_signed(lines: &mut Listing, number: i64)
    requires { Room lines.old (signed_decimal number ++ (10 ∷ [])) }
    ensures { Puts lines.old lines.new (signed_decimal number ++ (10 ∷ [])) }
{
    if number < 0 {
        lines.push(b'-');
        put_number(lines, number.unsigned_abs(), "\n");
        return;
    }
    put_number(lines, number.unsigned_abs(), "\n");
}

// The line of a field by its coded number, none where it is missing.
fn put_field(lines: &mut Listing, field: Field, code: Coded)
    requires { Room lines.old (field_line field.number (entry_of (field_at field.number) code)) }
    ensures { Puts lines.old lines.new (field_line field.number (entry_of (field_at field.number) code)) }
{
    if code.0 == 0 {
        return;
    }
    put_number(lines, field.number as u64, " ");
    put_signed(lines, field.scaled(code).0);
}

fn put_fields(lines: &mut Listing, buffer: &[u8])
    requires { (38 ≤ length buffer.now) × Room lines.old (value_lines buffer.now 0) }
    ensures { Puts lines.old lines.new (value_lines buffer.now 0) }
{
    for number in 1..=46 {
        let field = Field::at(number);
        put_field(lines, field, field.code(buffer));
    }
}

// The line of a letter and a number.
fn put_lettered(lines: &mut Listing, letter: &str, number: u64)
    requires { Room lines.old (line letter.now (decimal number)) }
    ensures { Puts lines.old lines.new (line letter.now (decimal number)) }
{
    lines.push_str(letter);
    lines.push_str(" ");
    put_number(lines, number, "\n");
}

fn put_observation(lines: &mut Listing, buffer: &[u8], checksum: u64, count: u64)
    requires { (38 ≤ length buffer.now) × Room lines.old (value_lines buffer.now 0 ++ lettered_lines checksum count) }
    ensures { Puts lines.old lines.new (value_lines buffer.now 0 ++ lettered_lines checksum count) }
{
    put_fields(lines, buffer);
    put_lettered(lines, "C", checksum);
    put_lettered(lines, "A", count);
}

fn put_refusal(lines: &mut Listing, number: u8, place: usize)
    requires { Room lines.old (refusal_line number place) }
    ensures { Puts lines.old lines.new (refusal_line number place) }
{
    lines.push_str("R ");
    put_number(lines, u64::from(number), " ");
    put_number(lines, place as u64, "\n");
}

// The lines of a report, of which no flag is forbidden.
fn lines_of(buffer: &[u8]) -> Listing
    ensures { result ≡ listing_of (judge all_yes buffer.now) }
{
    let mut lines = Listing::new();
    match report::inspect(buffer, 0, flag_table::all_yes()) {
        Ok(report) => {
            let checksum = card::checksum(buffer);
            put_observation(&mut lines, buffer, checksum, report.count as u64);
        }
        Err(refusal) => put_refusal(&mut lines, refusal.number(), refusal.place()),
    }
    lines
}

// The lines of an input, of which a longer one is cut.
fn lines_of_input(input: &[u8]) -> Listing
    ensures { result ≡ listing input.now }
{
    if COUNTING < input.len() {
        return lines_of(&input[..COUNTING]);
    }
    lines_of(input)
}

// Writes the lines for an input to the front of `out`, and gives how many bytes they take.
pub fn list(input: &[u8], out: &mut [u8; 512]) -> usize
    ensures { (result ≡ length (listing input.now)) × (out.new ≡ over (listing input.now) out.old) }
{
    let lines = lines_of_input(input);
    let bytes = lines.as_bytes();
    out[..bytes.len()].copy_from_slice(bytes);
    bytes.len()
}

// Lists the report that the input of `from` begins with to `to`.
pub fn list_input<R: Read, W: Write>(from: &mut R, to: &mut W) -> io::Result<()>
    ensures { OnOk result (IfSome (R.remaining from.old) (λ input. Appends (W.contents to.old) (W.contents to.new) (listing input))) }
{
    let mut input = [0u8; COUNTING];
    let length = streams::read_full(from, &mut input)?;
    let mut out = [0u8; 512];
    let listed = list(&input[..length], &mut out);
    to.write_all(&out[..listed])
}
