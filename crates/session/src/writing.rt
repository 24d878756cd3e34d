// Frames as lines: two digits a byte, then 0A.
ghost use Rattle.std.specs.Prelude.{◌≡◌, ℕ, [], ◌∷◌, ◌++◌, ◌+◌, ◌*◌, ◌≤◌, ◌<◌, List, length, take};
ghost use Rattle.lines.specs.Lines.{newline};
ghost use Rattle.session.specs.Writing.{hex_digit, digits_of, line_of};
ghost use Rattle.session.specs.Page.{printed};
ghost use Rattle.session.specs.Session.{longest_session};

use crate::LONGEST_SESSION;
use std::marker::Model;

// The digit 0-9 or A-F that stands for d. By hand: `write!` gives a result, which cannot fail here.
fn hex_digit(d: u8) -> u8
    requires { d < 16 }
    ensures { result ≡ hex_digit d }
{
    match d {
        0..=9 => b'0' + d,
        _ => b'A' - 10 + d,
    }
}

// The two digits of a byte.
pub fn digits(byte: u8) -> [u8; 2]
    ensures { result ≡ digits_of (byte ∷ []) }
{
    [hex_digit(byte / 16), hex_digit(byte % 16)]
}

// What is printed so far, in room for the longest session.
#[derive(Drop)]
pub(crate) struct Page {
    bytes: [u8; LONGEST_SESSION],
    count: usize,
}

impl Model for Page {
    ghost Value = { List ℕ };

    ghost view = { λ p. take p.count p.bytes };

    ghost invariant = { λ p. p.count ≤ longest_session };
}

impl Page {
    pub(crate) fn new() -> Self
        ensures { result ≡ [] }
    {
        Page {
            bytes: [0; LONGEST_SESSION],
            count: 0,
        }
    }

    // The two digits of a byte.
    fn put_byte(&mut self, byte: u8)
        requires { length self.old + 2 ≤ longest_session }
        ensures { self.new ≡ self.old ++ digits_of (byte ∷ []) }
    {
        self.bytes[self.count..self.count + 2].copy_from_slice(&digits(byte));
        self.count += 2;
    }

    // The digits of some bytes.
    pub(crate) fn put_bytes(&mut self, bytes: &[u8])
        requires { length self.old + 2 * length bytes.now ≤ longest_session }
        ensures { self.new ≡ self.old ++ digits_of bytes.now }
    {
        for byte in bytes {
            self.put_byte(*byte);
        }
    }

    // The 0A that ends a line.
    pub(crate) fn end_line(&mut self)
        requires { length self.old < longest_session }
        ensures { self.new ≡ self.old ++ newline ∷ [] }
    {
        self.bytes[self.count] = b'\n';
        self.count += 1;
    }

    // The line of a frame.
    pub(crate) fn put_line(&mut self, frame: &[u8])
        requires { length self.old + 2 * length frame.now + 1 ≤ longest_session }
        ensures { self.new ≡ self.old ++ line_of frame.now }
    {
        self.put_bytes(frame);
        self.end_line();
    }

    // Hands the page out, at the front of a buffer that has room for it, and tells how long it is. A buffer that has no room is left as it was.
    pub(crate) fn hand_out(&self, out: &mut [u8]) -> usize
        ensures value { result ≡ length self.now }
        ensures fits { result ≤ longest_session }
        ensures out_after { out.new ≡ printed self.now out.old }
    {
        let n = self.count;
        if n <= out.len() {
            out[..n].copy_from_slice(&self.bytes[..n]);
        }
        n
    }
}
