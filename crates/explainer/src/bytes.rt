// The steps of a reason as bytes, eight a step.
ghost use Rattle.std.specs.Prelude.{◌/◌, ◌≡◌, length};
ghost use Rattle.explainer.specs.Explain.{step_bytes, reason_of, bytes_over, bytes_after};
ghost use Rattle.explainer.specs.Code.Lent.{bytes_over_none};

use crate::asked::Refusal;
use crate::lent::{Slot, explain_into};
use crate::walk::Step;

// How many bytes a step has.
const STEP_BYTES: usize = 8;

// The bytes of a step.
fn step_bytes(step: Step) -> [u8; STEP_BYTES]
    ensures { result ≡ step_bytes step }
{
    let node = step.node.to_be_bytes();
    let round = step.round.to_be_bytes();
    [
        step.method,
        node[0],
        node[1],
        step.set,
        round[0],
        round[1],
        step.grade,
        step.rule,
    ]
}

impl Slot for u8 {
    ghost room_of = { λ bytes. length bytes / 8 };

    ghost over = { bytes_over };

    ghost none = { bytes_over_none };

    fn room(slots: &[u8]) -> usize {
        slots.len() / STEP_BYTES
    }

    fn put(slots: &mut [u8], i: usize, step: Step) {
        let from = STEP_BYTES * i;
        slots[from..from + STEP_BYTES].copy_from_slice(&step_bytes(step));
    }
}

// The reason for a method's grade under a held set, at the front of the lent bytes, which have room for an eighth as many steps. Where it is too
// short, and in any refusal, they are left as they were.
pub fn explain_bytes(
    text: &[u8],
    method: usize,
    set: usize,
    bytes: &mut [u8],
) -> Result<usize, Refusal>
    ensures value { result ≡ reason_of text.now method set (length bytes.old / 8) }
    ensures bytes_after { bytes.new ≡ bytes_after text.now method set bytes.old }
{
    explain_into(text, method, set, bytes)
}
