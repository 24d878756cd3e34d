// Where a call goes: the callee's held set whose entry is the call's own part.
ghost use Rattle.std.specs.Prelude.{◌≡◌, ◌⊎◌, ◌≤◌, ◌<◌, ◌^◌, MatchOption, suc, get_or, take};
ghost use Rattle.counting.specs.Counting.{member};
ghost use Rattle.frames.specs.Frames.{methods_in};
ghost use Rattle.frames.specs.Tables.{cell};
ghost use Rattle.frames.specs.Layout.{layout};
ghost use Rattle.frames.specs.Program.{method_at};
ghost use Rattle.meaning.specs.Meaning.{matching};
ghost use Rattle.meaning.specs.Lowest.{entry_count, rounds};
ghost use Rattle.reasons.specs.Steps.{tables_before};
ghost use Rattle.solver.specs.Flat.{program_in};
ghost use Rattle.solver.specs.Nodes.{node_in};
ghost use Rattle.explainer.specs.Code.Lower.{Ready};
ghost use Rattle.explainer.specs.Code.Callee.{agrees, Best};

use crate::before::entry_before;
use frames::layout::{GRADES, NO_NAME};
use grades::held::holds;

// An entry of the callee, and the held set that it stands at.
#[derive(Clone, Copy)]
pub(crate) struct Entry {
    pub grade: u8,
    pub set: usize,
}

// Whether a set of the callee's has its lock i as the caller's name for it in frame j allows: held exactly if the caller holds it;
// without a name held or not.
fn agrees(tables: &[u8], j: usize, set: u8, inside: u8, i: usize) -> bool
    requires { i < layout.names }
    ensures { result ≡ agrees set inside i (get_or (node_in tables.now j).names i 0) }
{
    let name = frames::name(tables, j, i);
    name == NO_NAME || holds(inside, i as u8) == holds(set, name as u8)
}

// Whether the call in frame j, under a set, can meet a set of the callee's k locks.
fn meets(tables: &[u8], j: usize, k: usize, set: u8, inside: u8) -> bool
    requires { (k ≤ layout.names) × (inside < 2 ^ k) }
    ensures { result ≡ member inside (matching (take k (node_in tables.now j).names) set) }
{
    (0..k).all(|i| agrees(tables, j, set, inside, i))
}

// The next entry, if it is the first or larger; else the best so far.
fn better(best: Option<Entry>, grade: u8, set: usize) -> Entry
    ensures { MatchOption best (result ≡ record { grade = grade; set = set }) (λ b. ((grade ≤ b.grade) × (result ≡ b)) ⊎ ((b.grade < grade) × (result ≡ record { grade = grade; set = set }))) }
{
    match best {
        Some(best) if grade <= best.grade => best,
        _ => Entry { grade, set },
    }
}

// "the lowest among the largest": of the entries of method u before a round that the call in frame j can meet, the largest, and the
// lowest held set that it stands at; none where it can meet none.
pub(crate) fn callee_entry<'a>(
    tables: &'a [u8],
    rises: &'a [u16],
    j: usize,
    u: usize,
    set: u8,
    round: usize,
) -> Option<Entry>
    requires ready { Ready tables.now rises.now }
    requires u_bound { (u < methods_in (cell tables.now)) × (1 ≤ round) × (round ≤ suc (rounds (program_in tables.now))) }
    ensures { Best (tables_before (program_in tables.now) round u) (node_in tables.now j).names (method_at (program_in tables.now) u).k set (entry_count (program_in tables.now) u) result }
{
    let k = frames::k(tables, u);
    let sets = frames::entries(k);
    let mut best = None;
    for inside in 0..sets {
        if meets(tables, j, k, set, inside as u8) {
            let grade = entry_before(rises, GRADES * u + inside, round);
            best = Some(better(best, grade, inside));
        }
    }
    best
}
