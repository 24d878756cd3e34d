// The lowest tables, with what is noted on the way to them.
ghost use Rattle.std.specs.Prelude.{ℕ, ◌+◌, ◌<◌, true, false, List, MatchOption, ◌≡◌, ⊤};
ghost use Rattle.counting.specs.Counting.{up_to};
ghost use Rattle.frames.specs.Frames.{methods_in};
ghost use Rattle.frames.specs.Tables.{cell};
ghost use Rattle.meaning.specs.Lowest.{method_count, rounds, lowest};
ghost use Rattle.meaning.specs.Constraints.{finding};
ghost use Rattle.solver.specs.Flat.{program_in, flat};
ghost use Rattle.solver.specs.Code.Rounds.{Fits};
ghost use Rattle.solver.specs.Laws.Rounds.{after_rounds};
ghost use Rattle.solver.specs.Findings.{found};
ghost use Rattle.solver.specs.Room.{has_room};

use crate::constraints::{Broken, first_broken};
use crate::method::Placed;
use crate::room::has_room;
use crate::rounds::{round, same, start, starts_of};
use frames::layout::{ANSWER_LENGTH, GRADES};

// What is kept of the rounds on the way to the lowest tables.
pub(crate) trait Notes {
    ghost Kept: { List ℕ → (n : ℕ) → Self → Type 0 };

    // Of the tables that the rounds start from.
    fn begin<'a>(tables: &'a [u8], start: &'a [u8; ANSWER_LENGTH]) -> Self
        requires fits { Fits tables.now }
        requires start { start.now ≡ flat (after_rounds tables.now 0) }
        ensures { Kept tables.now 0 result };

    // Of one round more, the first behind n others.
    fn next<'a>(
        &mut self,
        tables: &'a [u8],
        old: &'a [u8; ANSWER_LENGTH],
        new: &'a [u8; ANSWER_LENGTH],
        n: usize,
    )
        requires fits { Fits tables.now }
        requires old { old.now ≡ flat (after_rounds tables.now n) }
        requires new { new.now ≡ flat (after_rounds tables.now (n + 1)) }
        requires n_bound { n + 1 < 65536 }
        requires kept { Kept tables.now n self.old }
        ensures { Kept tables.now (n + 1) self.new };
}

// Nothing is noted.
impl Notes for () {
    ghost Kept = { λ t n notes. ⊤ };

    fn begin<'a>(tables: &'a [u8], start: &'a [u8; ANSWER_LENGTH]) {}

    fn next<'a>(
        &mut self,
        tables: &'a [u8],
        old: &'a [u8; ANSWER_LENGTH],
        new: &'a [u8; ANSWER_LENGTH],
        n: usize,
    ) {}
}

// The lowest tables, after how many rounds they were reached, and what was noted.
#[derive(Drop)]
pub(crate) struct Lowest<N> {
    pub rounds: usize,
    pub grades: [u8; ANSWER_LENGTH],
    pub notes: N,
}

// Rounds until one changes nothing. A `for` would have a last round, and something to answer behind it: that one changes nothing is what is proved.
pub(crate) fn lowest_of<'a, N: Notes + Drop>(placed: &'a Placed<'a>) -> Lowest<N>
    ensures rounds { result.rounds ≡ rounds (program_in placed.now.tables.now) }
    ensures grades { result.grades ≡ flat (lowest (program_in placed.now.tables.now)) }
    ensures notes { N.Kept placed.now.tables.now (rounds (program_in placed.now.tables.now)) result.notes }
{
    let used = GRADES * frames::methods(placed.tables);
    let mut old = start(placed.tables);
    let mut notes = N::begin(placed.tables, &old);
    let mut n = 0;
    loop {
        // Lent anew, for no longer than the old tables.
        let new = round(&*placed, &old);
        if same(&old, &new, used) {
            return Lowest {
                rounds: n,
                grades: old,
                notes,
            };
        }
        notes.next(placed.tables, &old, &new, n);
        old = new;
        n += 1;
    }
}

// The lowest tables of the program that checked tables stand for, and the first constraint that they break; none of tables that the engine has
// no room for.
pub(crate) fn settle<N: Notes + Drop>(tables: &[u8]) -> Option<(Option<Broken>, Lowest<N>)>
    ensures { MatchOption result (has_room tables.now ≡ false) (λ r. (has_room tables.now ≡ true) × (r.0 ≡ found (finding (program_in tables.now) (lowest (program_in tables.now)) (up_to (method_count (program_in tables.now))))) × (r.1.rounds ≡ rounds (program_in tables.now)) × (r.1.grades ≡ flat (lowest (program_in tables.now))) × N.Kept tables.now (rounds (program_in tables.now)) r.1.notes) }
{
    if !has_room(tables) {
        return None;
    }
    let placed = Placed {
        tables,
        starts: starts_of(tables),
    };
    let lowest = lowest_of(&placed);
    let broken = first_broken(&placed, &lowest.grades);
    Some((broken, lowest))
}
