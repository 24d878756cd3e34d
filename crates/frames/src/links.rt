// Refusal 6: what one frame says against the others. The tests are over the tables' bytes, so that they need no line; the nodes that a
// method has named so far are marked with a 1 each.
ghost use Rattle.std.specs.Prelude.{◌≡◌, cond, [], ◌∷◌, ◌≤◌, ◌<◌, ◌-◌, length};
ghost use Rattle.frames.specs.Layout.{layout};
ghost use Rattle.frames.specs.Tables.{cell};
ghost use Rattle.frames.specs.Links.{children_of, name_or_none, guard_uses, access_linked, call_name_linked, call_linked, fork_linked, names_linked, method_linked};
ghost use Rattle.frames.specs.Code.Marks.{Named, Linked, list_of};
ghost use Rattle.counting.specs.Counting.{every};

use crate::accessors::{cell, fields, guard, k, methods, nodes, nodes_before, op_at, two};
use crate::layout::{NAMES, NAMES_AT, NO_NAME, U_AT, X_AT, Y_AT, Z_AT};
use crate::{Due, Op, Stand};

// The guards that use a lock.
const GUARDED: usize = 1;

const WRITE_GUARDED: usize = 2;

// A child of node `number`, if there is one: whether it is below its node and not yet named. It is named from now on.
#[tactic(auto, unfolding(crate::specs::Code::Marks::fresh_in, crate::specs::Code::Marks::marked))]
fn name_child(named: &mut [u8], number: usize, child: Option<usize>) -> bool
    requires { number ≤ length named.old }
    ensures { Named result number named.old named.new (list_of child) }
{
    let Some(c) = child else {
        return true;
    };
    if number <= c || named[c] == 1 {
        return false;
    }
    named[c] = 1;
    true
}

// The children of the node in frame j, one after the other.
fn name_children(tables: &[u8], named: &mut [u8], j: usize, number: usize) -> bool
    requires { number ≤ length named.old }
    ensures { Named result number named.old named.new (children_of (cell tables.now j)) }
{
    let listed = op_at(tables, j).children();
    name_child(named, number, (0 < listed).then_some(two(tables, j, X_AT)))
        && name_child(named, number, (1 < listed).then_some(two(tables, j, Y_AT)))
        && name_child(named, number, (2 < listed).then_some(two(tables, j, Z_AT)))
}

// A name of the method, or FF.
fn name_or_none(k: usize, t: usize) -> bool
    ensures { result ≡ name_or_none k t }
{
    t < k || t == NO_NAME
}

// Guards by number: this crate stands on no `grades`, whose enum names them.
fn guard_uses(guard: usize) -> bool
    ensures { result ≡ guard_uses guard }
{
    matches!(guard, GUARDED | WRITE_GUARDED)
}

#[tactic(auto, unfolding(crate::specs::Links::access_linked))]
fn access_linked(tables: &[u8], j: usize, k: usize) -> bool
    ensures { result ≡ access_linked (cell tables.now) k (cell tables.now j) }
{
    let field = cell(tables, j, U_AT);
    let lock = cell(tables, j, NAMES_AT);
    if fields(tables) <= field {
        return false;
    }
    if guard_uses(guard(tables, field)) {
        name_or_none(k, lock)
    } else {
        lock == 0
    }
}

#[tactic(auto, unfolding(crate::specs::Links::call_name_linked))]
fn call_name_linked(tables: &[u8], j: usize, callee: usize, k: usize, t: usize) -> bool
    requires { t < layout.names }
    ensures { result ≡ call_name_linked callee k (cell tables.now j) t }
{
    let name = cell(tables, j, NAMES_AT + t);
    if t < callee {
        name_or_none(k, name)
    } else {
        name == 0
    }
}

fn call_names_linked(tables: &[u8], j: usize, callee: usize, k: usize) -> bool
    ensures { result ≡ every layout.names (call_name_linked callee k (cell tables.now j)) }
{
    (0..NAMES).all(|t| call_name_linked(tables, j, callee, k, t))
}

#[tactic(auto, unfolding(crate::specs::Links::call_linked))]
fn call_linked(tables: &[u8], j: usize, own: usize) -> bool
    ensures { result ≡ call_linked (cell tables.now) own (cell tables.now j) }
{
    let method = cell(tables, j, U_AT);
    method < methods(tables) && call_names_linked(tables, j, k(tables, method), own)
}

#[tactic(auto, unfolding(crate::specs::Links::fork_linked))]
fn fork_linked(tables: &[u8], j: usize) -> bool
    ensures { result ≡ fork_linked (cell tables.now) (cell tables.now j) }
{
    let method = cell(tables, j, U_AT);
    method < methods(tables) && 0 < k(tables, method)
}

// U and the names of the node in frame j, whose method has `own` names.
#[tactic(auto, using(crate::specs::Laws::Links::names_named))]
fn names_linked(tables: &[u8], j: usize, own: usize) -> bool
    ensures { result ≡ names_linked (cell tables.now) own (cell tables.now j) }
{
    match op_at(tables, j) {
        Op::Read | Op::Write => access_linked(tables, j, own),
        Op::Synchronised => cell(tables, j, NAMES_AT) < own,
        Op::Call => call_linked(tables, j, own),
        Op::Fork => fork_linked(tables, j),
        _ => true,
    }
}

// Method m: at the last one the counts total the header's nodes.
#[tactic(auto, unfolding(crate::specs::Links::method_linked))]
fn method_linked(tables: &[u8], m: usize) -> bool
    requires { m ≤ layout.most_frames }
    ensures { result ≡ method_linked (cell tables.now) m }
{
    let count = methods(tables);
    m + 1 != count || nodes_before(tables, count) == nodes(tables)
}

// The node in frame j; its children are named from now on.
#[tactic(auto, unfolding(crate::specs::Code::Marks::linked_by, crate::specs::Code::Marks::marked_by))]
fn node_linked(tables: &[u8], named: &mut [u8], j: usize, method: usize, number: usize) -> bool
    requires { number ≤ length named.old }
    ensures { Linked result (cell tables.now) named.old named.new Due.Node j method number }
{
    name_children(tables, named, j, number) && names_linked(tables, j, k(tables, method))
}

// The test of frame i, which is due.
#[tactic(auto, unfolding(crate::specs::Code::Marks::linked_by, crate::specs::Code::Marks::marked_by))]
pub(crate) fn linked(tables: &[u8], named: &mut [u8], due: Due, i: usize, stand: Stand) -> bool
    requires { (i < layout.most_frames) × (stand.number ≤ length named.old) }
    ensures { Linked result (cell tables.now) named.old named.new due i stand.method stand.number }
{
    match due {
        Due::Header | Due::Field | Due::End => true,
        Due::Method => method_linked(tables, i.saturating_sub(1 + fields(tables))),
        Due::Node => node_linked(tables, named, i, stand.method, stand.number),
    }
}
