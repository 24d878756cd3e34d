// The methods of checked tables, as the engine comes to them.
ghost use Rattle.frames.specs.Frames.{methods_in};
ghost use Rattle.frames.specs.Tables.{cell};
ghost use Rattle.solver.specs.Code.Rounds.{Fits, Starts, At};

use crate::node::node_grade;
use frames::layout::MOST_METHODS;

// Tables that flat tables have room for, with the frame of each method's first node.
#[derive(Drop)]
pub(crate) struct Placed<'a> {
    pub tables: &'a [u8],
    pub starts: [usize; MOST_METHODS],
    ghost fits: { Fits tables.now },
    ghost placed: { Starts tables.now (methods_in (cell tables.now)) starts },
}

// A method of tables that flat tables have room for: its number, and the frame of its first node.
#[derive(Clone, Copy)]
pub(crate) struct Method<'a> {
    pub tables: &'a [u8],
    pub number: usize,
    pub first: usize,
    ghost fits: { Fits tables.now },
    ghost at: { At tables.now number first },
}

impl<'a> Method<'a> {
    ghost use Rattle.std.specs.Prelude.{◌≡◌};
    ghost use Rattle.meaning.specs.Meaning.{root_table};
    ghost use Rattle.solver.specs.Flat.{program_in, tables_in};

    // Its root under a held set; a method with no node is a plain value.
    pub(crate) fn root_grade(self, grades: &'a [u8], set: u8) -> u8
        ensures { result ≡ root_table (program_in self.entry.tables.now) (tables_in grades.now) self.entry.number set }
    {
        let nodes = frames::node_count(self.tables, self.number);
        if nodes == 0 {
            return 0;
        }
        node_grade(self.tables, grades, self.first, nodes - 1, set)
    }
}
