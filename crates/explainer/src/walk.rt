// Walking a chain, step by step.
ghost use Rattle.std.specs.Prelude.{◌≡◌, ◌+◌, ◌<◌, IfSome, T, length};
ghost use Rattle.reasons.specs.Steps.{declared_step};
ghost use Rattle.solver.specs.Flat.{program_in};
ghost use Rattle.explainer.specs.Code.Lower.{Ready, lower_length};
ghost use Rattle.explainer.specs.Code.Places.{PlaceIn, NodeLower};
ghost use Rattle.explainer.specs.Explain.{step_of};
ghost use Rattle.explainer.specs.Code.Walk.{StepIs, Asking, Going, Entered, GivenAt, chain_of};

use crate::before::tables_before;
use crate::lower::grade_nodes;
use crate::picks::picked_part;
use crate::places::Place;
use crate::seen::see;
use crate::turns::turn;

// "Each step gives method, node, held set, round, grade and rule".
#[repr(C)]
#[derive(Clone, Copy)]
pub struct Step {
    pub method: u8,
    pub node: u16,
    pub set: u8,
    pub round: u16,
    pub grade: u8,
    pub rule: u8,
}

// A step, and the place that the chain goes on to, if it does.
#[derive(Clone, Copy)]
pub(crate) struct Advanced {
    pub step: Step,
    pub next: Option<Place>,
}

// The step at a place.
fn step_at<'a>(tables: &'a [u8], rises: &'a [u16], lower: &'a [u8], at: Place) -> Advanced
    requires ready { Ready tables.now rises.now × PlaceIn tables.now at }
    requires node_lower { NodeLower tables.now at lower.now }
    ensures { StepIs tables.now at result }
{
    let seen = see(tables, rises, lower, at);
    let grades = seen.grades;
    let pick = picked_part(&grades[..seen.count], seen.whole);
    let onward = turn(tables, rises, at, seen, pick);
    let step = Step {
        method: at.method as u8,
        node: at.node as u16,
        set: at.set,
        round: at.round as u16,
        grade: seen.whole,
        rule: onward.rule,
    };
    Advanced {
        step,
        next: onward.to,
    }
}

// The grades of the nodes of a place's method, from the tables before its round.
pub(crate) fn enter<'a>(tables: &'a [u8], rises: &'a [u16], lower: &mut [u8], at: Place)
    requires ready { Ready tables.now rises.now × PlaceIn tables.now at }
    requires lower_len { length lower.old ≡ lower_length }
    ensures { NodeLower tables.now at lower.new }
{
    let before = tables_before(tables, rises, at.round);
    grade_nodes(tables, &before, lower, at.method, at.first);
}

// Where a chain stands, and whether the grades of the nodes there are worked out: a flag, since it says what the lent buffer holds. A declared method that is
// asked for stands at round 0, as document 02 has it.
#[derive(Clone, Copy)]
pub(crate) struct Walk {
    pub at: Place,
    pub entered: bool,
}

// A step, and where the chain goes on, if it does.
#[derive(Clone, Copy)]
pub(crate) struct Given {
    pub step: Step,
    pub next: Option<Walk>,
}

// "A declared method asked for gives one step: its root, round 0, its declared grade, rule 7."
fn declared_step(tables: &[u8], at: Place) -> Step
    requires { Asking tables.now at }
    ensures { result ≡ step_of (declared_step (program_in tables.now) at.method at.set) }
{
    Step {
        method: at.method as u8,
        node: at.node as u16,
        set: at.set,
        round: 0,
        grade: frames::entry(tables, at.method, usize::from(at.set)) as u8,
        rule: 7,
    }
}

// The step at a place, with the grades of its nodes worked out first where they are not.
fn entered_step<'a>(
    tables: &'a [u8],
    rises: &'a [u16],
    lower: &mut [u8],
    at: Place,
    entered: bool,
) -> Advanced
    requires ready { Ready tables.now rises.now × PlaceIn tables.now at }
    requires lower_len { (length lower.old ≡ lower_length) × (T entered → NodeLower tables.now at lower.old) }
    ensures step_is { StepIs tables.now at result }
    ensures node_lower { NodeLower tables.now at lower.new }
{
    if !entered {
        enter(tables, rises, lower, at);
    }
    step_at(tables, rises, lower, at)
}

// The next step of a chain. Where it stands in a round that was not entered, the grades of the nodes there are worked out first. Along a chain rounds
// only fall: where the round stays, they are known.
pub(crate) fn give<'a>(tables: &'a [u8], rises: &'a [u16], lower: &mut [u8], walk: Walk) -> Given
    requires going { Going tables.now rises.now walk }
    requires entered { Entered tables.now walk lower.old }
    ensures given_at { GivenAt tables.now rises.now walk result }
    ensures entered_2 { IfSome result.next (λ next. Entered tables.now next lower.new) }
{
    let at = walk.at;
    if at.round == 0 {
        let step = declared_step(tables, at);
        return Given { step, next: None };
    }
    let one = entered_step(tables, rises, lower, at, walk.entered);
    let next = one.next.map(|to| Walk {
        at: to,
        entered: at.round <= to.round,
    });
    Given {
        step: one.step,
        next,
    }
}

// How many steps a chain has. As in `fill`, which has something to fill, only the step before says whether there is one more.
pub(crate) fn chain_length<'a>(
    tables: &'a [u8],
    rises: &'a [u16],
    lower: &mut [u8],
    start: Walk,
) -> usize
    requires going { Going tables.now rises.now start }
    requires entered { Entered tables.now start lower.old }
    ensures { result ≡ length (chain_of tables.now start.at) }
{
    let mut next = Some(start);
    let mut n = 0;
    while let Some(walk) = next {
        next = give(tables, rises, lower, walk).next;
        n += 1;
    }
    n
}
