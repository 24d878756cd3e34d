// Every number of the frames' layout (document 01, "Frames"); the definitions have them in `layout` of specs/Layout.antt.

// The first byte of a frame, its kind, and how many bytes it has.
pub const HEADER_KIND: usize = 1;

pub const FIELD_KIND: usize = 2;

pub const METHOD_KIND: usize = 4;

pub const NODE_KIND: usize = 3;

pub const HEADER_LENGTH: usize = 5;

pub const FIELD_LENGTH: usize = 3;

pub const METHOD_LENGTH: usize = 21;

pub const NODE_LENGTH: usize = 13;

// The greatest numbers.
pub const MOST_METHODS: usize = 64;

pub const MOST_FIELDS: usize = 64;

pub const MOST_NODES: usize = 1024;

pub const MOST_NAMES: usize = 4;

pub const MOST_WIDTH: usize = 1;

pub const MOST_GUARD: usize = 3;

pub const MOST_DECLARED: usize = 1;

pub const MOST_GRADE: usize = 4;

pub const MOST_OP: usize = 9;

pub const MOST_TEXT: usize = 32768;

// How many grades a method frame has, and how many names a node frame.
pub const GRADES: usize = 16;

pub const NAMES: usize = 4;

// Where the bytes stand in a header, a field, a method and a node.
pub const METHODS_AT: usize = 1;

pub const FIELDS_AT: usize = 2;

pub const NODES_AT: usize = 3;

pub const WIDTH_AT: usize = 1;

pub const GUARD_AT: usize = 2;

pub const K_AT: usize = 1;

pub const COUNT_AT: usize = 2;

pub const DECLARED_AT: usize = 4;

pub const GRADES_AT: usize = 5;

pub const OP_AT: usize = 1;

pub const X_AT: usize = 2;

pub const Y_AT: usize = 4;

pub const Z_AT: usize = 6;

pub const U_AT: usize = 8;

pub const NAMES_AT: usize = 9;

// A name that the caller does not have. It is a byte of the text.
pub const NO_NAME: usize = 255;

// The tables: how many bytes a frame takes, how many frames there are, and how many bytes that is.
pub const STRIDE: usize = 21;

pub const MOST_FRAMES: usize = 1153;

pub const TABLES_LENGTH: usize = MOST_FRAMES * STRIDE;

// The lent answer: an entry for each grade of each method.
pub const ANSWER_LENGTH: usize = MOST_METHODS * GRADES;
