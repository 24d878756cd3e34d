// What the checked tables say. A number that the tables have no room for counts as one whose bytes are all 0. Each function takes any list of bytes and gives a
// `usize`, as its promise in docs/CONTRACTS.md says: so they are no methods of `Tables`, which has one length, and `Byte` and `Wide` are what allows a cast
// to fewer bits above. The three children are promised apart.
ghost use Rattle.std.specs.Prelude.{◌≡◌, ◌*◌, ◌^◌, ◌≤◌, ◌<◌, min, length, get_or};
ghost use Rattle.frames.specs.Layout.{layout};
ghost use Rattle.frames.specs.Frames.{two, methods_in, fields_in, nodes_in, field_frame, method_frame};
ghost use Rattle.frames.specs.Links.{nodes_before};
ghost use Rattle.frames.specs.Ops.{op_named};
ghost use Rattle.frames.specs.Tables.{cell, field_of, method_of, node_of, first_frame, Byte, Wide};

use crate::Op;
use crate::layout::{
    COUNT_AT, DECLARED_AT, FIELDS_AT, GRADES_AT, GUARD_AT, K_AT, METHODS_AT, MOST_FRAMES,
    MOST_NAMES, NAMES, NAMES_AT, NODES_AT, OP_AT, STRIDE, U_AT, WIDTH_AT, X_AT, Y_AT, Z_AT,
};

// Byte b of frame j; 0 for a frame or a byte that the tables have no room for.
#[tactic(auto, unfolding(crate::specs::Tables::cell))]
pub fn cell(tables: &[u8], j: usize, b: usize) -> usize
    ensures { Byte result (cell tables.now j b) }
{
    if MOST_FRAMES <= j || STRIDE <= b {
        return 0;
    }
    match tables.get(j * STRIDE + b) {
        Some(byte) => usize::from(*byte),
        None => 0,
    }
}

// The two-byte number at byte b of frame j.
pub(crate) fn two(tables: &[u8], j: usize, b: usize) -> usize
    requires { b < layout.stride }
    ensures { Wide result (two (cell tables.now j) b) }
{
    256 * cell(tables, j, b) + cell(tables, j, b + 1)
}

pub fn methods(tables: &[u8]) -> usize
    ensures { Byte result (methods_in (cell tables.now)) }
{
    cell(tables, 0, METHODS_AT)
}

pub fn fields(tables: &[u8]) -> usize
    ensures { Byte result (fields_in (cell tables.now)) }
{
    cell(tables, 0, FIELDS_AT)
}

pub fn nodes(tables: &[u8]) -> usize
    ensures { Wide result (nodes_in (cell tables.now)) }
{
    two(tables, 0, NODES_AT)
}

// Byte b of the frame of field i.
#[tactic(auto, unfolding(crate::specs::Tables::cell))]
fn field_cell(tables: &[u8], i: usize, b: usize) -> usize
    ensures { Byte result (field_frame (cell tables.now) i b) }
{
    cell(tables, i.saturating_add(1), b)
}

// Byte b of the frame of method m.
#[tactic(auto, unfolding(crate::specs::Tables::cell))]
fn method_cell(tables: &[u8], m: usize, b: usize) -> usize
    ensures { Byte result (method_frame (cell tables.now) m b) }
{
    cell(tables, m.saturating_add(1 + fields(tables)), b)
}

pub fn width(tables: &[u8], i: usize) -> usize
    ensures { Byte result (field_of (field_frame (cell tables.now) i)).width }
{
    field_cell(tables, i, WIDTH_AT)
}

pub fn guard(tables: &[u8], i: usize) -> usize
    ensures { Byte result (field_of (field_frame (cell tables.now) i)).guard }
{
    field_cell(tables, i, GUARD_AT)
}

pub fn k(tables: &[u8], m: usize) -> usize
    ensures { Byte result (method_of (cell tables.now) m).k }
{
    method_cell(tables, m, K_AT)
}

pub fn declared(tables: &[u8], m: usize) -> bool
    ensures { result ≡ (method_of (cell tables.now) m).declared }
{
    method_cell(tables, m, DECLARED_AT) == 1
}

// How many held sets k names have, up to the grades that a method frame has room for.
pub fn entries(k: usize) -> usize
    ensures { result ≡ min (2 ^ k) layout.grades }
{
    1 << k.min(MOST_NAMES)
}

// The declared grade of method m at held set h; 0 past its table.
pub fn entry(tables: &[u8], m: usize, h: usize) -> usize
    ensures { Byte result (get_or (method_of (cell tables.now) m).table h 0) }
{
    if entries(k(tables, m)) <= h {
        return 0;
    }
    method_cell(tables, m, GRADES_AT + h)
}

pub fn node_count(tables: &[u8], m: usize) -> usize
    ensures { Wide result (length (method_of (cell tables.now) m).nodes) }
{
    256 * method_cell(tables, m, COUNT_AT) + method_cell(tables, m, COUNT_AT + 1)
}

// How many nodes the methods below m have.
#[tactic(auto, unfolding(crate::specs::Links::nodes_before))]
pub(crate) fn nodes_before(tables: &[u8], m: usize) -> usize
    requires { m ≤ layout.most_frames }
    ensures { (result ≡ nodes_before (cell tables.now) m) × (result ≤ 65536 * m) }
{
    let mut total = 0;
    for i in 0..m {
        total += node_count(tables, i);
    }
    total
}

// The frame of method m's first node.
#[tactic(auto, using(crate::specs::Laws::Tables::nodes_before_most))]
pub fn first_frame(tables: &[u8], m: usize) -> usize
    ensures { result ≡ first_frame (cell tables.now) m }
{
    1 + fields(tables) + methods(tables) + nodes_before(tables, m.min(MOST_FRAMES))
}

// The node in frame j: its op, its children X, Y, Z, its field or method U.
pub fn op(tables: &[u8], j: usize) -> usize
    ensures { Byte result (node_of (cell tables.now j)).op }
{
    cell(tables, j, OP_AT)
}

// The same op by its name.
pub fn op_at(tables: &[u8], j: usize) -> Op
    ensures { result ≡ op_named (node_of (cell tables.now j)).op }
{
    Op::from(op(tables, j))
}

pub fn child_x(tables: &[u8], j: usize) -> usize
    ensures { Wide result (node_of (cell tables.now j)).X }
{
    two(tables, j, X_AT)
}

pub fn child_y(tables: &[u8], j: usize) -> usize
    ensures { Wide result (node_of (cell tables.now j)).Y }
{
    two(tables, j, Y_AT)
}

pub fn child_z(tables: &[u8], j: usize) -> usize
    ensures { Wide result (node_of (cell tables.now j)).Z }
{
    two(tables, j, Z_AT)
}

pub fn used(tables: &[u8], j: usize) -> usize
    ensures { Byte result (node_of (cell tables.now j)).U }
{
    cell(tables, j, U_AT)
}

// Name t of the node in frame j; 0 past its names.
pub fn name(tables: &[u8], j: usize, t: usize) -> usize
    ensures { Byte result (get_or (node_of (cell tables.now j)).names t 0) }
{
    if NAMES <= t {
        return 0;
    }
    cell(tables, j, NAMES_AT + t)
}
