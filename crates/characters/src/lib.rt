// The table of the characters of the ship text: the generator, which gives it from the rules.
#![tactic(auto)]

ghost use Rattle.std.specs.Prelude.{◌+◌, ◌≤◌, ◌≡◌, length};
ghost use Rattle.std.proofs.lemmas.List.Edits.{sets};
ghost use Rattle.format.specs.ShipText.{up_from, char_table};
ghost use Rattle.characters.specs.Table.{ReadBack};

// Writes so many entries from a place on, each one more than the one before.
#[tactic(auto, using(crate::proofs::Entries::run_none, crate::proofs::Entries::run_more))]
fn put_run(out: &mut [u16], at: u8, count: usize, first: u16)
    requires { (at + count ≤ length out.old) × (first + count ≤ 65536) }
    ensures { out.new ≡ sets out.old at (up_from first count) }
{
    let at = usize::from(at);
    for i in 0..count {
        out[at + i] = first + i as u16;
    }
}

// Writes the entry of each byte as if it had no short code: 15 and the byte.
fn put_escapes(out: &mut [u16])
    requires { length out.old ≡ 256 }
    ensures { out.new ≡ up_from 0x3f00 256 }
{
    put_run(out, 0, 256, 0x3f00);
}

// The generator: the table from the rules. Its crate does not stand on that of the constant.
pub fn generate(out: &mut [u16; 256])
    ensures { (out.new ≡ char_table) × ReadBack out.new }
{
    put_escapes(out);
    put_run(out, b'0', 10, 0x1000);
    put_run(out, b' ', 1, 0x100a);
    put_run(out, b'A', 9, 0x20c1);
    put_run(out, b'J', 9, 0x20d1);
    put_run(out, b'S', 8, 0x20e2);
    put_run(out, b'/', 1, 0x20e1);
    put_run(out, b'&', 1, 0x20ca);
    put_run(out, b'+', 1, 0x20cb);
    put_run(out, b'-', 1, 0x20da);
    put_run(out, b'{', 1, 0x20c0);
    put_run(out, b'}', 1, 0x20d0);
}
