// The lowest tables, round by round (document 01, "Constraints and the answer"). Tables are flat: entry h of method m at 16m + h.
ghost use Rattle.std.specs.Prelude.{◌≡◌, true, false, ◌+◌, ◌*◌, ◌<◌, ◌≤◌};
ghost use Rattle.frames.specs.Layout.{layout, answer_length};
ghost use Rattle.frames.specs.Frames.{methods_in};
ghost use Rattle.frames.specs.Tables.{cell};
ghost use Rattle.solver.specs.Flat.{program_in, blank, tables_in};
ghost use Rattle.solver.specs.Code.Rounds.{Fits, Starts, Done, Still, SameTo, start_tables, round_tables, is_fixed};

use crate::method::{Method, Placed};
use frames::layout::{ANSWER_LENGTH, GRADES, MOST_METHODS};

// The frame of each method's first node.
pub(crate) fn starts_of(tables: &[u8]) -> [usize; MOST_METHODS]
    requires { Fits tables.now }
    ensures { Starts tables.now (methods_in (cell tables.now)) result }
{
    let mut starts = [0usize; MOST_METHODS];
    let methods = frames::methods(tables);
    let mut at = 1 + frames::fields(tables) + methods;
    for m in 0..methods {
        starts[m] = at;
        at += frames::node_count(tables, m);
    }
    starts
}

// A declared method's table, put in its place. This and `round_method` differ in what is put and in what the promise says of the rest.
fn start_method(tables: &[u8], new: &mut [u8], m: usize)
    requires fits { Fits tables.now }
    requires m_bound { m < methods_in (cell tables.now) }
    requires m_value { is_fixed tables.now m ≡ true }
    requires done { Done (layout.grades * m) (start_tables tables.now) blank new.old }
    ensures { Done (layout.grades * m + layout.grades) (start_tables tables.now) blank new.new }
{
    let count = frames::entries(frames::k(tables, m));
    for h in 0..count {
        new[GRADES * m + h] = frames::entry(tables, m, h) as u8;
    }
}

// The declared tables, and every other table all 0.
pub(crate) fn start(tables: &[u8]) -> [u8; ANSWER_LENGTH]
    requires { Fits tables.now }
    ensures { result ≡ start_tables tables.now }
{
    let mut new = [0u8; ANSWER_LENGTH];
    let methods = frames::methods(tables);
    for m in 0..methods {
        if frames::declared(tables, m) {
            start_method(tables, &mut new, m);
        }
    }
    new
}

// A method's root table, worked out from the tables before the round, put in its place.
fn round_method<'a>(method: Method<'a>, old: &'a [u8], new: &mut [u8])
    requires undeclared { is_fixed method.tables.now method.number ≡ false }
    requires still { Still method.tables.now old.now }
    requires done { Done (layout.grades * method.number) (round_tables method.tables.now old.now) old.now new.old }
    ensures { Done (layout.grades * method.entry.number + layout.grades) (round_tables method.entry.tables.now old.now) old.now new.new }
{
    let count = frames::entries(frames::k(method.tables, method.number));
    for h in 0..count {
        new[GRADES * method.number + h] = method.root_grade(old, h as u8);
    }
}

// One round: every undeclared method gets its root's table, all worked out from the tables before the round.
pub(crate) fn round<'a>(placed: &'a Placed<'a>, old: &'a [u8; ANSWER_LENGTH]) -> [u8; ANSWER_LENGTH]
    requires { Still placed.now.tables.now old.now }
    ensures { result ≡ round_tables placed.now.tables.now old.now }
{
    let mut new = *old;
    let methods = frames::methods(placed.tables);
    for m in 0..methods {
        if !frames::declared(placed.tables, m) {
            let method = Method {
                tables: placed.tables,
                number: m,
                first: placed.starts[m],
            };
            round_method(method, old, &mut new);
        }
    }
    new
}

// Whether two tables are the same up to place n.
pub(crate) fn same<'a>(old: &'a [u8; ANSWER_LENGTH], new: &'a [u8; ANSWER_LENGTH], n: usize) -> bool
    requires { n ≤ answer_length }
    ensures { SameTo n old.now new.now result }
{
    old[..n] == new[..n]
}
