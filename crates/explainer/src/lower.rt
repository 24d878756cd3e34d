// The grades of a method's nodes, at each node and held set, each from the grades of the lower nodes: node n under set S at 16n + S.
ghost use Rattle.std.specs.Prelude.{◌≡◌, ◌+◌, ◌*◌, ◌<◌, length, unwrap_or};
ghost use Rattle.frames.specs.Layout.{layout};
ghost use Rattle.frames.specs.Program.{method_at, node_at};
ghost use Rattle.meaning.specs.Meaning.{meaning};
ghost use Rattle.meaning.specs.Lowest.{entry_count};
ghost use Rattle.solver.specs.Flat.{program_in, tables_in};
ghost use Rattle.solver.specs.Nodes.{no_child};
ghost use Rattle.solver.specs.Code.Rounds.{At};
ghost use Rattle.explainer.specs.Code.Lower.{Read, Lower, child_grade, lower_length};

use frames::layout::{GRADES, MOST_NODES};

// Room for every node of a method at every held set.
pub(crate) const LOWER_LENGTH: usize = GRADES * MOST_NODES;

// The grade of a child under a set; 0 where there is none.
#[tactic(auto, unfolding(crate::specs::Code::Lower::child_grade))]
pub(crate) fn child_grade(lower: &[u8], child: Option<usize>, set: u8) -> u8
    requires { (length lower.now ≡ lower_length) × (set < layout.grades) }
    ensures { result ≡ child_grade lower.now (unwrap_or child no_child) set }
{
    match child {
        Some(child) if child < MOST_NODES => lower[GRADES * child + usize::from(set)],
        _ => 0,
    }
}

// The grade of node n of method m under a set, from the lower nodes. The solver's recursion has the children's grades from elsewhere: as a closure in one
// function it would be asked for being callable, and no public function asks anything.
fn node_grade<'a>(
    tables: &'a [u8],
    grades: &'a [u8],
    lower: &'a [u8],
    m: usize,
    first: usize,
    n: usize,
    set: u8,
) -> u8
    requires read { Read tables.now × At tables.now m first }
    requires n_in_bounds { (n < length (method_at (program_in tables.now) m).nodes) × (set < entry_count (program_in tables.now) m) }
    requires lower { Lower tables.now (tables_in grades.now) m n lower.now }
    ensures { result ≡ meaning (program_in tables.now) (tables_in grades.now) (node_at (method_at (program_in tables.now) m)) n set }
{
    let parts = solver::parts_of(tables, grades, first + n, set);
    let x = child_grade(lower, parts.x, parts.under);
    let y = child_grade(lower, parts.y, parts.under);
    let z = child_grade(lower, parts.z, parts.under);
    solver::combined(parts.op, parts.newly, x, y, z, parts.own)
}

// Node n of method m under each of its sets.
fn grade_node<'a>(
    tables: &'a [u8],
    grades: &'a [u8],
    lower: &mut [u8],
    m: usize,
    first: usize,
    n: usize,
    sets: usize,
)
    requires read { Read tables.now × At tables.now m first }
    requires n_in_bounds { (n < length (method_at (program_in tables.now) m).nodes) × (sets ≡ entry_count (program_in tables.now) m) }
    requires lower { Lower tables.now (tables_in grades.now) m n lower.old }
    ensures { Lower tables.now (tables_in grades.now) m (n + 1) lower.new }
{
    for set in 0..sets {
        let grade = node_grade(tables, grades, lower, m, first, n, set as u8);
        lower[GRADES * n + set] = grade;
    }
}

// All nodes of method m.
pub(crate) fn grade_nodes<'a>(
    tables: &'a [u8],
    grades: &'a [u8],
    lower: &mut [u8],
    m: usize,
    first: usize,
)
    requires read { Read tables.now × At tables.now m first }
    requires lower_len { length lower.old ≡ lower_length }
    ensures { Lower tables.now (tables_in grades.now) m (length (method_at (program_in tables.now) m).nodes) lower.new }
{
    let count = frames::node_count(tables, m);
    let sets = frames::entries(frames::k(tables, m));
    for n in 0..count {
        grade_node(tables, grades, lower, m, first, n, sets);
    }
}
