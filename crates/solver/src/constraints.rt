// The closed constraints (document 01, "Constraints and the answer"), in their order, against tables of grades. A constraint's broken set is the
// lowest held set at which it is broken.
ghost use Rattle.std.specs.Prelude.{◌≡◌, ◌<◌};
ghost use Rattle.frames.specs.Frames.{methods_in};
ghost use Rattle.frames.specs.Tables.{cell};
ghost use Rattle.counting.specs.Counting.{up_to};
ghost use Rattle.meaning.specs.Lowest.{entry_count};
ghost use Rattle.meaning.specs.Constraints.{broken_set, is_broken, first_broken, forks_of, closed_of, finding, declared_root, main_table};
ghost use Rattle.solver.specs.Flat.{program_in, tables_in};
ghost use Rattle.solver.specs.Code.Rounds.{Fits};
ghost use Rattle.solver.specs.Findings.{found};
ghost use Rattle.solver.specs.Code.Forks.{fork_set, IsLowestSet};

use crate::method::{Method, Placed};
use crate::node::{entry_at, names_taken};
use frames::Op;
use grades::held::holds;

// A broken constraint: its method, kind, fork node and lowest broken held set. The kind stays a number: it is the one that document 01's answer
// gives and that records and frames print.
#[derive(Clone, Copy, Debug, PartialEq, Eq)]
pub struct Broken {
    pub method: usize,
    pub kind: usize,
    pub node: usize,
    pub set: usize,
}

// How many held sets method u has, for a method that the program lacks too.
fn sets_of(tables: &[u8], u: usize) -> usize
    requires { Fits tables.now }
    ensures { result ≡ entry_count (program_in tables.now) u }
{
    frames::entries(names_taken(tables, u))
}

// Kind 1: the root's table is no larger than the declared one.
fn declared_broken<'a>(method: Method<'a>, grades: &'a [u8]) -> Option<usize>
    ensures { IsLowestSet (entry_count (program_in method.entry.tables.now) method.entry.number) (broken_set (program_in method.entry.tables.now) (tables_in grades.now) (declared_root method.entry.number)) result }
{
    for h in 0..sets_of(method.tables, method.number) {
        let root = method.root_grade(grades, h as u8);
        if frames::entry(method.tables, method.number, h) < usize::from(root) {
            return Some(h);
        }
    }
    None
}

// Kind 2, of the main: its own table is at most 3 at its one entry.
fn main_broken<'a>(tables: &'a [u8], grades: &'a [u8]) -> bool
    ensures { result ≡ is_broken (program_in tables.now) (tables_in grades.now) main_table }
{
    3 < entry_at(grades, 0, 0)
}

// Kind 3, of a fork of method u: u's table is at most 3 wherever its lock 0, the thread's own lock, is held.
fn fork_broken<'a>(tables: &'a [u8], grades: &'a [u8], u: usize) -> Option<usize>
    requires fits { Fits tables.now }
    requires u_bound { u < 256 }
    ensures { IsLowestSet (entry_count (program_in tables.now) u) (fork_set (program_in tables.now) (tables_in grades.now) u) result }
{
    for held in 0..sets_of(tables, u) {
        if 3 < entry_at(grades, u, held) && holds(held as u8, 0) {
            return Some(held);
        }
    }
    None
}

// The first broken constraint of a method's forks, in node order.
fn forks_broken<'a>(method: Method<'a>, grades: &'a [u8]) -> Option<Broken>
    ensures { result ≡ found (first_broken (program_in method.entry.tables.now) (tables_in grades.now) (forks_of (program_in method.entry.tables.now) method.entry.number)) }
{
    for node in 0..frames::node_count(method.tables, method.number) {
        if let Op::Fork = frames::op_at(method.tables, method.first + node) {
            let u = frames::used(method.tables, method.first + node);
            if let Some(set) = fork_broken(method.tables, grades, u) {
                return Some(Broken {
                    method: method.number,
                    kind: 3,
                    node,
                    set,
                });
            }
        }
    }
    None
}

// The first broken constraint of a method: kind 1 of a declared one, kind 2 of the main, then the forks.
fn method_broken<'a>(method: Method<'a>, grades: &'a [u8]) -> Option<Broken>
    ensures { result ≡ found (first_broken (program_in method.entry.tables.now) (tables_in grades.now) (closed_of (program_in method.entry.tables.now) method.entry.number)) }
{
    if frames::declared(method.tables, method.number) {
        if let Some(set) = declared_broken(method, grades) {
            return Some(Broken {
                method: method.number,
                kind: 1,
                node: 0,
                set,
            });
        }
    }
    if method.number == 0 && main_broken(method.tables, grades) {
        return Some(Broken {
            method: 0,
            kind: 2,
            node: 0,
            set: 0,
        });
    }
    forks_broken(method, grades)
}

// The first broken constraint of all methods, in their order; none if all are met.
pub(crate) fn first_broken<'a>(placed: &'a Placed<'a>, grades: &'a [u8]) -> Option<Broken>
    ensures { result ≡ found (finding (program_in placed.now.tables.now) (tables_in grades.now) (up_to (methods_in (cell placed.now.tables.now)))) }
{
    for m in 0..frames::methods(placed.tables) {
        let method = Method {
            tables: placed.tables,
            number: m,
            first: placed.starts[m],
        };
        if let Some(broken) = method_broken(method, grades) {
            return Some(broken);
        }
    }
    None
}
