// Document 01's numbers for each verdict, as records and frames give them.
ghost use Rattle.std.specs.Prelude.{◌≡◌};
ghost use Rattle.checker.specs.Grading.{numbers_of};

use crate::{Accepted, Refusal};

// "Numbers that don't apply are 0." They are numbers and no enums, since records, which programs in C read, and frames have them as such.
#[derive(Clone, Copy, Debug, PartialEq, Eq)]
pub struct Numbers {
    pub number: u8,
    pub line: usize,
    pub method: usize,
    pub kind: usize,
    pub node: usize,
    pub set: usize,
    pub methods: usize,
    pub rounds: usize,
}

pub const NO_NUMBERS: Numbers = Numbers {
    number: 0,
    line: 0,
    method: 0,
    kind: 0,
    node: 0,
    set: 0,
    methods: 0,
    rounds: 0,
};

// The numbers of a verdict; number 0 is "accepted".
pub fn numbers_of(verdict: &Result<Accepted, Refusal>) -> Numbers
    ensures { result ≡ numbers_of verdict.now }
{
    match *verdict {
        Ok(Accepted { methods, rounds }) => Numbers {
            methods,
            rounds,
            ..NO_NUMBERS
        },
        Err(Refusal::WrongLength) => Numbers {
            number: 1,
            ..NO_NUMBERS
        },
        Err(Refusal::Text(refusal)) => Numbers {
            number: refusal.number(),
            line: refusal.line(),
            ..NO_NUMBERS
        },
        Err(Refusal::Broken(broken)) => Numbers {
            number: 7,
            method: broken.method,
            kind: broken.kind,
            node: broken.node,
            set: broken.set,
            ..NO_NUMBERS
        },
    }
}
