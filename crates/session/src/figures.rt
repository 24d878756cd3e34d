// The bytes of numbers, and of a refusal's frame.
ghost use Rattle.std.specs.Prelude.{◌≡◌};
ghost use Rattle.session.specs.Session.{refusal_frame};
ghost use Rattle.session.specs.Writing.{high, low};

use checker::Numbers;

// A number's high byte and low byte, of a `usize` of which two bytes are printed.
pub fn high(n: usize) -> u8
    ensures { result ≡ high n }
{
    (n / 256 % 256) as u8
}

pub fn low(n: usize) -> u8
    ensures { result ≡ low n }
{
    (n % 256) as u8
}

// The frame of a refusal.
pub fn refusal_frame(n: &Numbers) -> [u8; 9]
    ensures { result ≡ refusal_frame n.now }
{
    [
        0x1F,
        n.number,
        high(n.line),
        low(n.line),
        low(n.method),
        low(n.kind),
        high(n.node),
        low(n.node),
        low(n.set),
    ]
}
