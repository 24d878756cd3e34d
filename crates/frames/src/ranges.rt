// Refusal 5: a value outside its range. Each test is over the tables' bytes, so that it needs no line.
ghost use Rattle.std.specs.Prelude.{◌≡◌, cond, ◌||◌, ◌<◌, min};
ghost use Rattle.frames.specs.Layout.{layout};
ghost use Rattle.frames.specs.Tables.{cell};
ghost use Rattle.frames.specs.Ranges.{header_in_range, field_in_range, grades_listed, grade_in_range, method_in_range, children_listed, names_listed, uses_field, uses_method, listed_or_zero, name_in_range, node_in_range, in_range};
ghost use Rattle.frames.specs.Laws.Ranges.{children_in_range};
ghost use Rattle.counting.specs.Counting.{every};

use crate::accessors::{cell, entries, fields, op_at, two};
use crate::layout::{
    COUNT_AT, DECLARED_AT, FIELDS_AT, GRADES, GRADES_AT, GUARD_AT, K_AT, METHODS_AT, MOST_DECLARED,
    MOST_FIELDS, MOST_GRADE, MOST_GUARD, MOST_METHODS, MOST_NAMES, MOST_NODES, MOST_WIDTH, NAMES,
    NAMES_AT, NODES_AT, U_AT, WIDTH_AT, X_AT, Y_AT, Z_AT,
};
use crate::{Due, Op};

#[tactic(auto, unfolding(crate::specs::Ranges::header_in_range))]
pub(crate) fn header_in_range(tables: &[u8], j: usize) -> bool
    ensures { result ≡ header_in_range (cell tables.now j) }
{
    matches!(cell(tables, j, METHODS_AT), 1..=MOST_METHODS)
        && cell(tables, j, FIELDS_AT) <= MOST_FIELDS
        && matches!(two(tables, j, NODES_AT), 1..=MOST_NODES)
}

#[tactic(auto, unfolding(crate::specs::Ranges::field_in_range))]
pub(crate) fn field_in_range(tables: &[u8], j: usize) -> bool
    ensures { result ≡ field_in_range (cell tables.now j) }
{
    cell(tables, j, WIDTH_AT) <= MOST_WIDTH && cell(tables, j, GUARD_AT) <= MOST_GUARD
}

// How many grades the method in frame j may list, if its k is in range.
#[tactic(auto, unfolding(crate::specs::Ranges::grades_listed))]
fn grades_listed(tables: &[u8], j: usize) -> usize
    ensures { result ≡ min (grades_listed (cell tables.now j)) layout.grades }
{
    if cell(tables, j, DECLARED_AT) == 1 {
        entries(cell(tables, j, K_AT))
    } else {
        0
    }
}

#[tactic(auto, unfolding(crate::specs::Ranges::grade_in_range))]
fn grade_in_range(tables: &[u8], j: usize, listed: usize, h: usize) -> bool
    requires { (h < layout.grades) × (listed ≡ min (grades_listed (cell tables.now j)) layout.grades) }
    ensures { result ≡ grade_in_range (cell tables.now j) h }
{
    let grade = cell(tables, j, GRADES_AT + h);
    if h < listed {
        grade <= MOST_GRADE
    } else {
        grade == 0
    }
}

fn grades_in_range(tables: &[u8], j: usize) -> bool
    ensures { result ≡ every layout.grades (grade_in_range (cell tables.now j)) }
{
    let listed = grades_listed(tables, j);
    // A loop: the proof of `(0..GRADES).all(..)`, as at the names below, was tried and did not close over sixteen grades.
    for h in 0..GRADES {
        if !grade_in_range(tables, j, listed, h) {
            return false;
        }
    }
    true
}

#[tactic(auto, unfolding(crate::specs::Ranges::method_in_range))]
pub(crate) fn method_in_range(tables: &[u8], j: usize, main: bool) -> bool
    ensures { result ≡ method_in_range main (cell tables.now j) }
{
    let most_names = if main { 0 } else { MOST_NAMES };
    cell(tables, j, K_AT) <= most_names
        && matches!(two(tables, j, COUNT_AT), 1..=MOST_NODES)
        && cell(tables, j, DECLARED_AT) <= MOST_DECLARED
        && grades_in_range(tables, j)
}

#[tactic(auto, using(crate::specs::Laws::Ops::children_named))]
pub fn children_listed(op: usize) -> usize
    ensures { result ≡ children_listed op }
{
    Op::from(op).children()
}

fn listed_or_zero(listed: bool, x: usize) -> bool
    ensures { result ≡ listed_or_zero listed x }
{
    listed || x == 0
}

// Name t of the node in frame j, whose op lists some.
#[tactic(auto, unfolding(crate::specs::Ranges::name_in_range))]
fn name_in_range(tables: &[u8], j: usize, listed: usize, t: usize) -> bool
    requires { (t < layout.names) × (listed ≡ names_listed (cell tables.now j layout.op_at)) }
    ensures { result ≡ name_in_range (cell tables.now j) t }
{
    listed_or_zero(t < listed, cell(tables, j, NAMES_AT + t))
}

fn names_in_range(tables: &[u8], j: usize, listed: usize) -> bool
    requires { listed ≡ names_listed (cell tables.now j layout.op_at) }
    ensures { result ≡ every layout.names (name_in_range (cell tables.now j)) }
{
    (0..NAMES).all(|t| name_in_range(tables, j, listed, t))
}

// X, Y and Z of the node in frame j, whose op lists some.
#[tactic(auto, unfolding(crate::specs::Laws::Ranges::children_in_range))]
fn children_in_range(tables: &[u8], j: usize, listed: usize) -> bool
    requires { listed ≡ children_listed (cell tables.now j layout.op_at) }
    ensures { result ≡ children_in_range (cell tables.now j) }
{
    listed_or_zero(0 < listed, two(tables, j, X_AT))
        && listed_or_zero(1 < listed, two(tables, j, Y_AT))
        && listed_or_zero(2 < listed, two(tables, j, Z_AT))
}

#[tactic(auto, using(crate::specs::Laws::Ranges::node_parts, crate::specs::Laws::Ops::names_named, crate::specs::Laws::Ops::uses_named, crate::specs::Laws::Ops::children_named, crate::specs::Laws::Ops::op_within, crate::specs::Laws::Ops::no_op_past))]
pub(crate) fn node_in_range(tables: &[u8], j: usize) -> bool
    ensures { result ≡ node_in_range (cell tables.now j) }
{
    let op = op_at(tables, j);
    !matches!(op, Op::NoOp(_))
        && children_in_range(tables, j, op.children())
        && listed_or_zero(op.uses(), cell(tables, j, U_AT))
        && names_in_range(tables, j, op.names())
}

// The test of frame i, which is due.
#[tactic(auto, unfolding(crate::specs::Ranges::in_range))]
pub(crate) fn in_range(tables: &[u8], due: Due, i: usize) -> bool
    ensures { result ≡ in_range (cell tables.now) due i }
{
    match due {
        Due::Header => header_in_range(tables, i),
        Due::Field => field_in_range(tables, i),
        Due::Method => method_in_range(tables, i, i == 1 + fields(tables)),
        Due::Node => node_in_range(tables, i),
        Due::End => true,
    }
}
