// An explanation in numbers, as records and frames give it.
ghost use Rattle.std.specs.Prelude.{◌≡◌};
ghost use Rattle.explainer.specs.Explain.{numbers_of};
ghost use Rattle.explainer.specs.InNumbers.{without_count};

use crate::asked::Refusal;
use checker::{NO_NUMBERS, Numbers};

// Its numbers as a verdict has them, without the count of its steps; number 0 is "explained".
pub fn numbers_of(reason: &Result<usize, Refusal>) -> Numbers
    ensures { result ≡ without_count (numbers_of reason.now) }
{
    match *reason {
        Ok(_) => NO_NUMBERS,
        Err(Refusal::Text(refusal)) => Numbers {
            number: refusal.number(),
            line: refusal.line(),
            ..NO_NUMBERS
        },
        Err(Refusal::Broken(broken)) => Numbers {
            number: 7,
            method: broken.method,
            kind: broken.kind,
            node: broken.node,
            set: broken.set,
            ..NO_NUMBERS
        },
        Err(Refusal::NoEntry) => Numbers {
            number: 10,
            ..NO_NUMBERS
        },
        Err(Refusal::TooShort(_)) => Numbers {
            number: 11,
            ..NO_NUMBERS
        },
    }
}
