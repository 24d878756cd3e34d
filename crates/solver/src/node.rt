// The grade of a node under a held set (document 01, "What each node means"), by recursion on the node number, which falls to each
// child. The children are worked out alike, an absent one as const, and put together once.
//
// The promises are of tables of any length. A text's tables have one length, and most of the time goes to reading them: so `node_grade` and
// `callee_grade` ask for it first. Where it is known, the compiler tests no place that is read; tables of another length have functions of their
// own (`other_..`), with the same code.
ghost use Rattle.std.specs.Prelude.{◌≡◌, cond, ◌+◌, ◌*◌, ◌≤◌, ◌<◌, ◌^◌, min, length, unwrap_or};
ghost use Rattle.grades.specs.HeldSets.{mask_names};
ghost use Rattle.frames.specs.Layout.{layout};
ghost use Rattle.frames.specs.Ops.{number_of};
ghost use Rattle.frames.specs.Program.{field_at, method_at};
ghost use Rattle.meaning.specs.Meaning.{field_access, matching, largest, callee_entry, below, meaning};
ghost use Rattle.solver.specs.Code.Engine.{nodes_from, entries_from, first_node_frame, last_frame, LocksFit};
ghost use Rattle.solver.specs.Nodes.{node_in, meant, own_grade, combined, mask_set, no_child, PartsOf};
ghost use Rattle.solver.specs.Flat.{program_in, tables_in};

use frames::Op;
use frames::layout::{GRADES, NAMES, TABLES_LENGTH};
use grades::access::access;
use grades::arithmetic::{assert_atomic, closure, compose, join, lock_taken};
use grades::held::{NO_NAME, holds, with_name};

// Entry h of method m, of flat tables; 0 past them.
pub(crate) fn entry_at(grades: &[u8], m: usize, h: usize) -> u8
    requires { m < 256 }
    ensures { result ≡ tables_in grades.now m h }
{
    if h < GRADES {
        grades.get(GRADES * m + h).copied().unwrap_or(0)
    } else {
        0
    }
}

// The set that a node's children are graded under: a synchronised node adds its lock.
#[tactic(auto, unfolding(crate::specs::Nodes::mask_set))]
fn set_under(op: Op, name: u8, set: u8) -> u8
    ensures { result ≡ mask_set (number_of op) name set }
{
    match op {
        Op::Synchronised => with_name(set, name),
        _ => set,
    }
}

// What a node comes to, of its children's grades and its own part.
pub fn combined(op: Op, newly: bool, x: u8, y: u8, z: u8, own: u8) -> u8
    ensures { result ≡ combined (meant op) newly x y z own }
{
    match op {
        Op::Choice => compose(x, join(y, z)),
        Op::Loop => compose(x, closure(compose(y, x))),
        Op::Synchronised if newly => lock_taken(x),
        Op::Synchronised => x,
        Op::Assertion => assert_atomic(x),
        Op::PlainValue | Op::Read | Op::Write | Op::Sequence | Op::Call | Op::Fork => {
            compose(compose(x, y), own)
        }
        Op::NoOp(_) => 4,
    }
}

// The access of a read or a write. A field that the program lacks permits nothing.
fn field_grade(tables: &[u8], j: usize, write: bool, set: u8) -> u8
    ensures { result ≡ field_access (field_at (program_in tables.now) (node_in tables.now j).U) write (node_in tables.now j).names set }
{
    let u = frames::used(tables, j);
    if frames::fields(tables) <= u {
        return 4;
    }
    let held = holds(set, frames::name(tables, j, 0) as u8);
    access(
        frames::width(tables, u) as u8,
        frames::guard(tables, u) as u8,
        write,
        held,
    )
}

// How many of a node's names the callee takes: as many as it has, of those that a node lists. A method that the program lacks has none.
pub(crate) fn names_taken(tables: &[u8], u: usize) -> usize
    ensures { result ≡ min (method_at (program_in tables.now) u).k layout.names }
{
    if u < frames::methods(tables) {
        frames::k(tables, u).min(NAMES)
    } else {
        0
    }
}

// A set of the callee's names below j, with the answer for name j.
fn answered(inside: u8, j: u8, answer: bool) -> u8
    requires { (j < mask_names) × (inside < 2 ^ j) }
    ensures { result ≡ inside + cond answer 1 0 * 2 ^ j }
{
    if answer { with_name(inside, j) } else { inside }
}

// The largest of the callee's entries at the sets that match the caller's names from j on and have, of the callee's names below j, those in
// `inside`. A name is held exactly if the caller holds it; FF may be held or not, so both are tried. No list of the sets is made.
#[cycle(largest_entry)]
fn largest_entry<'a>(grades: &'a [u8], u: usize, set: u8, names: &'a [u8], j: u8, inside: u8) -> u8
    requires { (u < 256) × (j + length names.now ≤ mask_names) × (inside < 2 ^ j) }
    ensures { result ≡ largest (entries_from (tables_in grades.now u) j inside) (matching names.now set) }
{
    let [name, rest @ ..] = names else {
        return entry_at(grades, u, usize::from(inside));
    };
    if *name == NO_NAME {
        let without = entry_from(grades, u, set, rest, j + 1, answered(inside, j, false));
        let with = entry_from(grades, u, set, rest, j + 1, answered(inside, j, true));
        // `join` would take what is over error for error.
        return without.max(with);
    }
    let next = answered(inside, j, holds(set, *name));
    largest_entry(grades, u, set, rest, j + 1, next)
}

// The same, without a call where no name is left: `largest_entry` would come to that at every other one.
#[cycle(largest_entry)]
#[inline(always)]
fn entry_from<'a>(grades: &'a [u8], u: usize, set: u8, names: &'a [u8], j: u8, inside: u8) -> u8
    requires { (u < 256) × (j + length names.now ≤ mask_names) × (inside < 2 ^ j) }
    ensures { result ≡ largest (entries_from (tables_in grades.now u) j inside) (matching names.now set) }
{
    let [_, ..] = names else {
        return entry_at(grades, u, usize::from(inside));
    };
    largest_entry(grades, u, set, names, j, inside)
}

// The callee's entry, of the caller's names for its locks. Up to the first lock without a name one set matches. `largest_entry` from name 0 on
// would give the same: the loop keeps a call without FF as quick as one set is.
fn entry_by_names<'a>(grades: &'a [u8], u: usize, set: u8, names: &'a [u8]) -> u8
    requires { (u < 256) × (length names.now ≤ mask_names) }
    ensures { result ≡ largest (tables_in grades.now u) (matching names.now set) }
{
    let mut inside = 0;
    for (j, &name) in names.iter().enumerate() {
        if name == NO_NAME {
            return largest_entry(grades, u, set, &names[j..], j as u8, inside);
        }
        inside = answered(inside, j as u8, holds(set, name));
    }
    entry_at(grades, u, usize::from(inside))
}

// The names that the node in frame j lists. Each is written out: `map` over the four places was tried, and the proof did not close.
fn names_of(tables: &[u8], j: usize) -> [u8; NAMES]
    ensures { result ≡ (node_in tables.now j).names }
{
    [
        frames::name(tables, j, 0) as u8,
        frames::name(tables, j, 1) as u8,
        frames::name(tables, j, 2) as u8,
        frames::name(tables, j, 3) as u8,
    ]
}

// The callee's entry.
#[inline(always)]
fn entry_of_callee<'a>(tables: &'a [u8], grades: &'a [u8], j: usize, set: u8) -> u8
    ensures { result ≡ callee_entry (method_at (program_in tables.now) (node_in tables.now j).U).k (tables_in grades.now (node_in tables.now j).U) (node_in tables.now j).names set }
{
    let u = frames::used(tables, j);
    let k = names_taken(tables, u);
    entry_by_names(grades, u, set, &names_of(tables, j)[..k])
}

// The same, of tables of another length than a text's.
#[cold]
#[inline(never)]
fn other_callee_grade<'a>(tables: &'a [u8], grades: &'a [u8], j: usize, set: u8) -> u8
    ensures { result ≡ callee_entry (method_at (program_in tables.now) (node_in tables.now j).U).k (tables_in grades.now (node_in tables.now j).U) (node_in tables.now j).names set }
{
    entry_of_callee(tables, grades, j, set)
}

// The same. A call of its own: what it has on the stack is then gone before a node's children are graded.
#[inline(never)]
fn callee_grade<'a>(tables: &'a [u8], grades: &'a [u8], j: usize, set: u8) -> u8
    ensures { result ≡ callee_entry (method_at (program_in tables.now) (node_in tables.now j).U).k (tables_in grades.now (node_in tables.now j).U) (node_in tables.now j).names set }
{
    match <&'a [u8; TABLES_LENGTH]>::try_from(tables) {
        Ok(whole) => entry_of_callee(whole, grades, j, set),
        Err(_) => other_callee_grade(tables, grades, j, set),
    }
}

// A node's own part: an access, the callee's entry, a fork's 2; const where its op has none.
#[inline(always)]
fn own_grade<'a>(tables: &'a [u8], grades: &'a [u8], j: usize, op: Op, set: u8) -> u8
    ensures { result ≡ own_grade (program_in tables.now) (tables_in grades.now) (meant op) (node_in tables.now j) set }
{
    match op {
        Op::Read => field_grade(tables, j, false, set),
        Op::Write => field_grade(tables, j, true, set),
        Op::Call => callee_grade(tables, grades, j, set),
        Op::Fork => 2,
        _ => 0,
    }
}

// What a node is put together from: its op, the set that its children are graded under and whether that lock is newly taken, the
// children that the op lists, and its own part.
#[derive(Drop)]
pub struct Parts {
    pub op: Op,
    pub newly: bool,
    pub under: u8,
    pub x: Option<usize>,
    pub y: Option<usize>,
    pub z: Option<usize>,
    pub own: u8,
}

// Of the node in frame j under a set. A lock that a mask has no bit for, as no text has one, is not added. The node's own part comes first, while
// little else is to be kept.
#[inline(always)]
pub fn parts_of<'a>(tables: &'a [u8], grades: &'a [u8], j: usize, set: u8) -> Parts
    ensures { PartsOf (program_in tables.now) (tables_in grades.now) (node_in tables.now j) set result }
{
    let op = frames::op_at(tables, j);
    let name = frames::name(tables, j, 0) as u8;
    let listed = op.children();
    Parts {
        own: own_grade(tables, grades, j, op, set),
        op,
        newly: !holds(set, name),
        under: set_under(op, name, set),
        x: (0 < listed).then(|| frames::child_x(tables, j)),
        y: (1 < listed).then(|| frames::child_y(tables, j)),
        z: (2 < listed).then(|| frames::child_z(tables, j)),
    }
}

// The grade of a child of node n; const where there is none.
#[cycle(node_grade)]
fn child_grade<'a>(
    tables: &'a [u8],
    grades: &'a [u8],
    first: usize,
    n: usize,
    child: Option<usize>,
    set: u8,
) -> u8
    requires locks_fit { LocksFit tables.now }
    requires tables_bound { (first_node_frame tables.now ≤ first) × (first + n < last_frame tables.now) × (first < 2 ^ 32) × (n < 65536) }
    ensures { result ≡ below (program_in tables.now) (tables_in grades.now) (nodes_from tables.now first) n (unwrap_or child no_child) set }
{
    match child {
        Some(child) if child < n => node_grade(tables, grades, first, child, set),
        _ => 0,
    }
}

// The grade of node n, of its parts.
#[cycle(node_grade)]
#[inline(always)]
fn grade_of_parts<'a>(
    tables: &'a [u8],
    grades: &'a [u8],
    first: usize,
    n: usize,
    set: u8,
    node: Parts,
) -> u8
    requires locks_fit { LocksFit tables.now }
    requires tables_bound { (first_node_frame tables.now ≤ first) × (first + n < last_frame tables.now) × (first < 2 ^ 32) × (n < 65536) }
    requires parts { PartsOf (program_in tables.now) (tables_in grades.now) (node_in tables.now (first + n)) set node }
    ensures { result ≡ meaning (program_in tables.now) (tables_in grades.now) (nodes_from tables.now first) n set }
{
    let x = child_grade(tables, grades, first, n, node.x, node.under);
    let y = child_grade(tables, grades, first, n, node.y, node.under);
    let z = child_grade(tables, grades, first, n, node.z, node.under);
    combined(node.op, node.newly, x, y, z, node.own)
}

// The grade of node n, of tables of another length than a text's.
#[cycle(node_grade)]
#[cold]
#[inline(never)]
fn other_node_grade<'a>(tables: &'a [u8], grades: &'a [u8], first: usize, n: usize, set: u8) -> u8
    requires locks_fit { LocksFit tables.now }
    requires tables_bound { (first_node_frame tables.now ≤ first) × (first + n < last_frame tables.now) × (first < 2 ^ 32) × (n < 65536) }
    ensures { result ≡ meaning (program_in tables.now) (tables_in grades.now) (nodes_from tables.now first) n set }
{
    let node = parts_of(tables, grades, first + n, set);
    grade_of_parts(tables, grades, first, n, set, node)
}

// The grade of node n of the method whose first node stands in frame `first`.
#[cycle(node_grade)]
pub(crate) fn node_grade<'a>(
    tables: &'a [u8],
    grades: &'a [u8],
    first: usize,
    n: usize,
    set: u8,
) -> u8
    requires locks_fit { LocksFit tables.now }
    requires tables_bound { (first_node_frame tables.now ≤ first) × (first + n < last_frame tables.now) × (first < 2 ^ 32) × (n < 65536) }
    ensures { result ≡ meaning (program_in tables.now) (tables_in grades.now) (nodes_from tables.now first) n set }
{
    match <&'a [u8; TABLES_LENGTH]>::try_from(tables) {
        Ok(whole) => {
            let node = parts_of(whole, grades, first + n, set);
            grade_of_parts(whole, grades, first, n, set, node)
        }
        Err(_) => other_node_grade(tables, grades, first, n, set),
    }
}
