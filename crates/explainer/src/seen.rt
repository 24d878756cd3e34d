// What a step looks at: its node's parts and their grades.
ghost use Rattle.std.specs.Prelude.{◌≡◌, ◌+◌, ◌*◌, ◌≤◌, ◌<◌, length, get_or, unwrap_or};
ghost use Rattle.frames.specs.Layout.{layout};
ghost use Rattle.frames.specs.Ops.{op_named};
ghost use Rattle.solver.specs.Flat.{program_in};
ghost use Rattle.solver.specs.Nodes.{node_in, meant, no_child};
ghost use Rattle.explainer.specs.Code.Lower.{Ready, lower_length, child_grade};
ghost use Rattle.explainer.specs.Code.Places.{PlaceIn, SeenAt, own_count, OwnEntry, NodeLower};

use crate::callee::{Entry, callee_entry};
use crate::lower::child_grade;
use crate::places::Place;
use frames::Op;
use frames::layout::GRADES;
use solver::Parts;

// A node's op; the children that it lists, and the set that they are graded under; how many parts it has and their grades, the
// children's first; the whole's grade; and of a call the callee's held set.
#[derive(Clone, Copy)]
pub(crate) struct Seen {
    pub op: Op,
    pub x: Option<usize>,
    pub y: Option<usize>,
    pub z: Option<usize>,
    pub under: u8,
    pub count: usize,
    pub grades: [u8; 4],
    pub whole: u8,
    pub own: u8,
    pub set: usize,
}

// How many parts of its own a node has: an access, a callee's entry, a fork's 2, or none.
fn own_count(op: Op) -> usize
    ensures { result ≡ own_count (meant op) }
{
    match op {
        Op::Read | Op::Write | Op::Call | Op::Fork => 1,
        _ => 0,
    }
}

// The node's own part, where it has one; a call's in the tables before the round, of which it can always meet one.
fn own_entry<'a>(tables: &'a [u8], rises: &'a [u16], at: Place, op: Op, own: u8) -> Entry
    requires ready { Ready tables.now rises.now × PlaceIn tables.now at }
    requires op_value { op ≡ op_named (node_in tables.now (at.first + at.node)).op }
    ensures { OwnEntry (program_in tables.now) (node_in tables.now (at.first + at.node)) at own result.grade result.set }
{
    let given = Entry { grade: own, set: 0 };
    match op {
        Op::Call => {
            let j = at.first + at.node;
            let met = callee_entry(tables, rises, j, frames::used(tables, j), at.set, at.round);
            met.unwrap_or(given)
        }
        _ => given,
    }
}

// The grades of the parts: the children's, and behind them the node's own.
fn part_grades(lower: &[u8], parts: Parts, listed: usize, own: u8) -> [u8; 4]
    requires { (length lower.now ≡ lower_length) × (parts.under < layout.grades) × (listed ≤ 3) }
    ensures { (length result ≡ 4) × (get_or result listed 0 ≡ own) × ((0 < listed → get_or result 0 0 ≡ child_grade lower.now (unwrap_or parts.x no_child) parts.under) × (1 < listed → get_or result 1 0 ≡ child_grade lower.now (unwrap_or parts.y no_child) parts.under) × (2 < listed → get_or result 2 0 ≡ child_grade lower.now (unwrap_or parts.z no_child) parts.under)) }
{
    let mut grades = [
        child_grade(lower, parts.x, parts.under),
        child_grade(lower, parts.y, parts.under),
        child_grade(lower, parts.z, parts.under),
        0,
    ];
    grades[listed] = own;
    grades
}

// The node at a place.
pub(crate) fn see<'a>(tables: &'a [u8], rises: &'a [u16], lower: &'a [u8], at: Place) -> Seen
    requires ready { Ready tables.now rises.now × PlaceIn tables.now at }
    requires node_lower { NodeLower tables.now at lower.now }
    ensures { SeenAt tables.now at result }
{
    // A call's own part is looked for in the tables before the round, by `own_entry`.
    let none = [0u8; 0];
    let parts = solver::parts_of(tables, &none, at.first + at.node, at.set);
    let own = own_entry(tables, rises, at, parts.op, parts.own);
    let listed = parts.op.children();
    Seen {
        op: parts.op,
        x: parts.x,
        y: parts.y,
        z: parts.z,
        under: parts.under,
        count: listed + own_count(parts.op),
        grades: part_grades(lower, parts, listed, own.grade),
        whole: lower[GRADES * at.node + usize::from(at.set)],
        own: own.grade,
        set: own.set,
    }
}
