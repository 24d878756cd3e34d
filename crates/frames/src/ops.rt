// The ops of nodes.
ghost use Rattle.std.specs.Prelude.{◌≡◌, ◌||◌};
ghost use Rattle.frames.specs.Ops.{op_named, number_of};
ghost use Rattle.frames.specs.Ranges.{children_listed, names_listed, uses_field, uses_method};

use crate::layout::NAMES;

// Ops 0 to 9. A number over 9 is no op: a case and no error, since `combined` of the solver promises an answer for every number.
#[derive(Clone, Copy, Debug, PartialEq, Eq)]
pub enum Op {
    PlainValue,
    Read,
    Write,
    Sequence,
    Choice,
    Loop,
    Synchronised,
    Assertion,
    Call,
    Fork,
    NoOp(usize),
}

impl From<usize> for Op {
    ghost from_gives = { λ number op. op ≡ op_named number };

    #[tactic(auto, using(crate::specs::Laws::Ops::ops_past), unfolding(crate::specs::Ops::op_named))]
    fn from(number: usize) -> Op {
        match number {
            0 => Op::PlainValue,
            1 => Op::Read,
            2 => Op::Write,
            3 => Op::Sequence,
            4 => Op::Choice,
            5 => Op::Loop,
            6 => Op::Synchronised,
            7 => Op::Assertion,
            8 => Op::Call,
            9 => Op::Fork,
            _ => Op::NoOp(number),
        }
    }
}

impl Op {
    // How many of X, Y, Z the op lists.
    #[tactic(auto, unfolding(crate::specs::Ranges::children_listed))]
    pub fn children(self) -> usize
        ensures { result ≡ children_listed (number_of self) }
    {
        match self {
            Op::PlainValue | Op::NoOp(_) => 0,
            Op::Read | Op::Synchronised | Op::Assertion | Op::Call | Op::Fork => 1,
            Op::Write | Op::Sequence | Op::Loop => 2,
            Op::Choice => 3,
        }
    }

    // How many of T0 to T3.
    #[tactic(auto, unfolding(crate::specs::Ranges::names_listed))]
    pub(crate) fn names(self) -> usize
        ensures { result ≡ names_listed (number_of self) }
    {
        match self {
            Op::Read | Op::Write | Op::Synchronised => 1,
            Op::Call => NAMES,
            _ => 0,
        }
    }

    // Whether U is a field or a method.
    pub(crate) fn uses(self) -> bool
        ensures { result ≡ (uses_field (number_of self) || uses_method (number_of self)) }
    {
        matches!(self, Op::Read | Op::Write | Op::Call | Op::Fork)
    }
}
