// Where a step goes on, and by which rule (document 02, W-207).
ghost use Rattle.std.specs.Prelude.{◌≡◌, not, ◌+◌, ◌<◌, ◌≤◌, T, get_or};
ghost use Rattle.frames.specs.Frames.{methods_in};
ghost use Rattle.frames.specs.Tables.{cell};
ghost use Rattle.meaning.specs.Meaning.{op_of, own};
ghost use Rattle.meaning.specs.Lowest.{is_declared};
ghost use Rattle.reasons.specs.Steps.{root_place, call_turn, own_turn, end_rule, node_here, callee_place, picked, pick_at, turn_at};
ghost use Rattle.solver.specs.Flat.{program_in};
ghost use Rattle.solver.specs.Nodes.{meant};
ghost use Rattle.explainer.specs.Code.Lower.{Ready};
ghost use Rattle.explainer.specs.Code.Picks.{PickedAt};
ghost use Rattle.explainer.specs.Code.Places.{place_of, PlaceIn, HasBeen, SeenAt, TurnOf, child_number};

use crate::picks::Pick;
use crate::places::{Onward, Place, end, root_place, to_child};
use crate::seen::Seen;
use frames::Op;

// Child i of a node, if it lists so many. The children are three fields and no array, as in `Parts`, whose promise has them apart.
fn child_number(seen: Seen, i: usize) -> Option<usize>
    ensures { result ≡ child_number seen i }
{
    match i {
        0 => seen.x,
        1 => seen.y,
        2 => seen.z,
        _ => None,
    }
}

// No part accounts for the whole: "it ends with rule 0 at a plain value, .. 5 a lock taken that turned 0 or 1 into 2, 6 an assert that
// turned 3 into 4".
fn end_rule(op: Op) -> u8
    ensures { (result ≡ end_rule (meant op)) × (result ≤ 6) }
{
    match op {
        Op::Synchronised => 5,
        Op::Assertion => 6,
        _ => 0,
    }
}

// A call's own part: "2 to an undeclared callee", "7 a declared callee".
fn call_turn<'a>(
    tables: &'a [u8],
    rises: &'a [u16],
    u: usize,
    set: usize,
    grade: u8,
    added: u8,
) -> Onward
    requires ready { Ready tables.now rises.now × (u < methods_in (cell tables.now)) × (added ≤ 8) }
    requires has_been { T (not (is_declared (program_in tables.now) u)) → HasBeen (program_in tables.now) u set grade }
    ensures { TurnOf tables.now (call_turn (is_declared (program_in tables.now) u) (root_place (program_in tables.now) u set grade) added) result }
{
    if frames::declared(tables, u) {
        return end(7 + added);
    }
    let to = root_place(tables, rises, u, set, grade);
    Onward {
        rule: 2 + added,
        to: Some(to),
    }
}

// A part of the node's own: "3 an access, 4 a fork's own 2", or a call's.
fn own_turn<'a>(tables: &'a [u8], rises: &'a [u16], at: Place, seen: Seen, added: u8) -> Onward
    requires ready { Ready tables.now rises.now × PlaceIn tables.now at × SeenAt tables.now at seen × (added ≤ 8) }
    requires at_value { pick_at (program_in tables.now) (place_of at) ≡ picked (own seen.own) added }
    ensures { TurnOf tables.now (own_turn (op_of (node_here (program_in tables.now) (place_of at)).op) (is_declared (program_in tables.now) (node_here (program_in tables.now) (place_of at)).U) (callee_place (program_in tables.now) (place_of at) seen.own) added) result }
{
    match seen.op {
        Op::Call => {
            let u = frames::used(tables, at.first + at.node);
            call_turn(tables, rises, u, seen.set, seen.own, added)
        }
        Op::Fork => end(4 + added),
        _ => end(3 + added),
    }
}

// The rule at the part that was picked, and where it goes.
pub(crate) fn turn<'a>(
    tables: &'a [u8],
    rises: &'a [u16],
    at: Place,
    seen: Seen,
    pick: Option<Pick>,
) -> Onward
    requires ready { Ready tables.now rises.now × PlaceIn tables.now at × SeenAt tables.now at seen }
    requires picked_at { PickedAt seen.whole (λ i. get_or seen.grades i 0) seen.count pick }
    ensures { TurnOf tables.now (turn_at (program_in tables.now) (place_of at)) result }
{
    let Some(Pick { part, added }) = pick else {
        return end(end_rule(seen.op));
    };
    if let Some(child) = child_number(seen, part) {
        return to_child(at, child, seen.under, 1 + added);
    }
    own_turn(tables, rises, at, seen, added)
}
