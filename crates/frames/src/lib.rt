// Frames: from any text to checked tables (document 01, "Frames" and "Refusal numbers"). Here and in the crates above nothing is allocated, so that programs in
// C can call it: tables and marks are arrays of a fixed size, and what is read or filled is lent. A loop is a `for` over a number where its invariant speaks of
// that number.
#![tactic(auto)]

mod accessors;
pub mod layout;
mod links;
mod ops;
mod ranges;
mod reading;

use layout::TABLES_LENGTH;
use lines::Place;

// The checked tables: the frames of a text, each at the same stride; the header is frame 0.
#[derive(Drop)]
pub struct Tables {
    pub bytes: [u8; TABLES_LENGTH],
}

// Why a text is not read; a refusal for a line gives the line, from 1.
#[derive(Clone, Copy, Debug, PartialEq, Eq)]
pub enum Refusal {
    Overlong,
    Malformed(usize),
    Misplaced(usize),
    OutOfRange(usize),
    Unlinked(usize),
}

// One text of a longer stream, and the place after it.
#[derive(Drop)]
pub struct OneText {
    pub tables: Tables,
    pub after: Place,
}

// The frame that is due next. The end is a case beside the others, as `due` in specs/Frames has it.
#[derive(Clone, Copy, Debug, PartialEq, Eq)]
pub enum Due {
    Header,
    Field,
    Method,
    Node,
    End,
}

// What is wrong with a line.
#[derive(Clone, Copy, Debug, PartialEq, Eq)]
pub enum Fault {
    Malformed,
    Misplaced,
    OutOfRange,
    Unlinked,
}

// The method that the next node stands in, and the node's number there.
#[derive(Clone, Copy, Debug, PartialEq, Eq)]
pub struct Stand {
    pub method: usize,
    pub number: usize,
}

pub use accessors::{
    cell, child_x, child_y, child_z, declared, entries, entry, fields, first_frame, guard, k,
    methods, name, node_count, nodes, op, op_at, used, width,
};
pub use ops::Op;
pub use ranges::children_listed;
pub use reading::{line, number, read};
