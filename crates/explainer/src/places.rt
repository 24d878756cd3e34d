// Places, and the turns from one to the next.
ghost use Rattle.std.specs.Prelude.{◌≡◌, Some, None, ◌+◌, ◌<◌};
ghost use Rattle.meaning.specs.Constraints.{Entry};
ghost use Rattle.reasons.specs.Steps.{root_place};
ghost use Rattle.solver.specs.Flat.{program_in};
ghost use Rattle.explainer.specs.Code.Lower.{Read, Ready};
ghost use Rattle.explainer.specs.Code.Places.{place_of, PlaceIn, AtRoot, HasBeen};

use crate::before::first_round;
use frames::layout::GRADES;

// Where a step stands: a node of a method, under a held set, in a round. `first` is the frame of the method's first node.
#[derive(Clone, Copy)]
pub(crate) struct Place {
    pub method: usize,
    pub first: usize,
    pub node: usize,
    pub set: u8,
    pub round: usize,
}

// A step's rule, and the place that the chain goes on to, if it does. The rule stays a number, to which 8 may be added: it is the byte of a `Step`, which
// programs in C read.
#[derive(Clone, Copy)]
pub(crate) struct Onward {
    pub rule: u8,
    pub to: Option<Place>,
}

// The chain ends here.
pub(crate) fn end(rule: u8) -> Onward
    ensures { result ≡ record { rule = rule; to = None } }
{
    Onward { rule, to: None }
}

// It goes on to a child, in the same round.
pub(crate) fn to_child(at: Place, child: usize, set: u8, rule: u8) -> Onward
    ensures { result ≡ record { rule = rule; to = Some (record { method = at.method; first = at.first; node = child; set = set; round = at.round }) } }
{
    let to = Place {
        node: child,
        set,
        ..at
    };
    Onward { rule, to: Some(to) }
}

// A method's root under a held set, in a round.
pub(crate) fn at_root(tables: &[u8], m: usize, set: usize, round: usize) -> Place
    requires { Read tables.now × Entry (program_in tables.now) m set }
    ensures { AtRoot tables.now m set round result }
{
    Place {
        method: m,
        first: frames::first_frame(tables, m),
        node: frames::node_count(tables, m) - 1,
        set: set as u8,
        round,
    }
}

// An undeclared method's root under a held set, in the round at which that entry first got a grade.
pub(crate) fn root_place<'a>(
    tables: &'a [u8],
    rises: &'a [u16],
    m: usize,
    set: usize,
    grade: u8,
) -> Place
    requires ready { Ready tables.now rises.now }
    requires has_been { HasBeen (program_in tables.now) m set grade }
    ensures { (place_of result ≡ root_place (program_in tables.now) m set grade) × PlaceIn tables.now result }
{
    let round = first_round(rises, GRADES * m + set, grade);
    at_root(tables, m, set, round)
}
