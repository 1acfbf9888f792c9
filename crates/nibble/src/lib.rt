// Nibbles of a buffer, the high half of each byte first, read by a cursor.
#![tactic(auto)]

ghost use Rattle.std.specs.Prelude.{◌≡◌, ◌+◌, ◌*◌, ◌≤◌, ◌<◌, ◌^◌, ltb, length, get_or};
ghost use Rattle.format.specs.Nibbles.{nibbles};
ghost use Rattle.format.specs.Calls.{all_nibbles};
ghost use Rattle.nibble.specs.View.{view, step_at, header_at, moved};

// A place, counted in nibbles. Packed: two nibbles a byte; else one a byte.
#[derive(Clone, Copy, Debug, PartialEq, Eq)]
pub struct Cursor {
    pub at: usize,
    pub packed: bool,
}

// A header: AL, AID, and the place of the data.
#[derive(Clone, Copy, Debug, PartialEq, Eq)]
pub struct Header {
    pub al: usize,
    pub id: usize,
    pub body: Cursor,
}

// The nibble at a place.
#[tactic(auto, using(laws::proofs::Nibbles::get_d_even, laws::proofs::Nibbles::get_d_odd, crate::proofs::View::packed_length))]
pub fn nibble_at(s: &[u8], at: usize, packed: bool) -> u8
    requires { at < length (view packed s.now) }
    ensures { result ≡ get_or (view packed s.now) at 0 }
{
    if packed {
        let b = s[at / 2];
        if at % 2 == 0 {
            return b / 16;
        }
        return b % 16;
    }
    s[at]
}

// The nibble at a place of a packed buffer.
#[tactic(auto, using(laws::proofs::Nibbles::nibbles_lt, crate::proofs::View::packed_length))]
pub fn packed_at(s: &[u8], at: usize) -> u8
    requires { at < 2 * length s.now }
    ensures { (result ≡ get_or (nibbles s.now) at 0) × (result < 16) }
{
    nibble_at(s, at, true)
}

// Whether a nibble stands at a place.
#[tactic(auto, using(crate::proofs::View::packed_inside))]
pub fn inside(s: &[u8], at: usize, packed: bool) -> bool
    ensures { result ≡ ltb at (length (view packed s.now)) }
{
    if packed {
        return at / 2 < s.len();
    }
    at < s.len()
}

// Whether each byte is a nibble: whether no byte has a bit above the low four. It does not stop early, since the compiler
// takes many bytes at once only in a loop that runs to its end.
#[tactic(auto, using(crate::proofs::View::nibble_next, crate::proofs::View::nibbles_end))]
pub fn all_nibbles(ns: &[u8]) -> bool
    ensures { result ≡ all_nibbles ns.now }
{
    let mut bits = 0;
    for byte in ns {
        bits |= *byte;
    }
    bits <= 15
}

impl Cursor {
    // The nibble at the place, and the place behind it; none at the end.
    #[tactic(auto, using(crate::proofs::View::step_is))]
    pub fn nibble(self, s: &[u8]) -> Option<(u8, Cursor)>
        requires { self.at ≤ 2 ^ 32 }
        ensures { result ≡ step_at s.now self }
    {
        if inside(s, self.at, self.packed) {
            return Some((nibble_at(s, self.at, self.packed), self.skip(1)));
        }
        None
    }

    // The header at the place, none where three nibbles do not fit.
    #[tactic(auto, using(crate::proofs::View::header_is))]
    pub fn header(self, s: &[u8]) -> Option<Header>
        requires { self.at ≤ 2 ^ 32 }
        ensures { result ≡ header_at s.now self }
    {
        let at = self.at;
        let packed = self.packed;
        if inside(s, at + 2, packed) {
            let high = usize::from(nibble_at(s, at, packed));
            let low = usize::from(nibble_at(s, at + 1, packed));
            let id = usize::from(nibble_at(s, at + 2, packed));
            return Some(Header {
                al: high * 16 + low,
                id,
                body: self.skip(3),
            });
        }
        None
    }

    // The place n nibbles further.
    pub fn skip(self, n: usize) -> Cursor
        requires { (self.at ≤ 2 ^ 32) × (n ≤ 2 ^ 32) }
        ensures { result ≡ moved self n }
    {
        Cursor {
            at: self.at + n,
            packed: self.packed,
        }
    }
}
