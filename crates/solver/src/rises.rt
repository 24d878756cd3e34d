// The rounds at which entries rise. Entries only rise, at most four times each, so the rounds of the rises say all tables of all rounds.
ghost use Rattle.std.specs.Prelude.{◌≡◌, ◌*◌, ◌<◌, ◌≤◌, length};
ghost use Rattle.frames.specs.Layout.{layout, answer_length};
ghost use Rattle.frames.specs.Frames.{methods_in};
ghost use Rattle.frames.specs.Tables.{cell};
ghost use Rattle.meaning.specs.Lowest.{rounds, lowest};
ghost use Rattle.solver.specs.Flat.{program_in, flat};
ghost use Rattle.solver.specs.Rises.{rises_length, rises_after, risen_in};
ghost use Rattle.solver.specs.Code.Rounds.{Fits, Starts};
ghost use Rattle.solver.specs.Code.Rises.{NotedAt, Noted};

use crate::constraints::Broken;
use crate::lowest::{Lowest, Notes, settle};
use frames::layout::{ANSWER_LENGTH, GRADES, MOST_GRADE};

// One number for each entry and each grade over const.
pub const RISES: usize = MOST_GRADE * ANSWER_LENGTH;

// In place of a round, where an entry never comes to a grade. No `Option`: `solve_rises` promises these numbers (`risen_in`), and 4,096 of them are 8 kB.
pub const NEVER: u16 = 65535;

// What a program comes to, with the rounds of all rises: of entry e of flat tables, the number of rounds after which it first is grade g
// or over it stands at 4e + g - 1.
#[derive(Drop)]
pub struct Risen {
    pub broken: Option<Broken>,
    pub rounds: usize,
    pub rises: [u16; RISES],
}

// Notes a round at each grade that entry e has risen to in it.
fn note_entry(rises: &mut [u16], e: usize, old: u8, new: u8, n: u16)
    requires { (length rises.old ≡ rises_length) × (e < answer_length) }
    ensures { NotedAt e layout.most_grade old new n rises.old rises.new }
{
    for below in usize::from(old)..usize::from(new).min(MOST_GRADE) {
        rises[MOST_GRADE * e + below] = n;
    }
}

// The same, at each of the first `used` entries.
fn note(rises: &mut [u16], old: &[u8], new: &[u8], used: usize, n: u16)
    requires { (length rises.old ≡ rises_length) × (length old.now ≡ answer_length) × (length new.now ≡ answer_length) × (used ≤ answer_length) }
    ensures { Noted (layout.most_grade * used) old.now new.now n rises.old rises.new }
{
    for e in 0..used {
        note_entry(rises, e, old[e], new[e], n);
    }
}

// The rises are noted.
impl Notes for [u16; RISES] {
    ghost Kept = { λ t n notes. notes ≡ rises_after (program_in t) n };

    fn begin<'a>(tables: &'a [u8], start: &'a [u8; ANSWER_LENGTH]) -> [u16; RISES] {
        let used = GRADES * frames::methods(tables);
        let mut rises = [NEVER; RISES];
        let none = [0u8; ANSWER_LENGTH];
        note(&mut rises, &none, start, used, 0);
        rises
    }

    fn next<'a>(
        &mut self,
        tables: &'a [u8],
        old: &'a [u8; ANSWER_LENGTH],
        new: &'a [u8; ANSWER_LENGTH],
        n: usize,
    ) {
        let used = GRADES * frames::methods(tables);
        note(self, old, new, used, n as u16 + 1);
    }
}

// As `solve`, with the rounds of the rises in place of the grades, which follow from them.
pub fn solve_rises(tables: &[u8]) -> Option<Risen>
    ensures { result ≡ risen_in tables.now }
{
    let (broken, lowest) = settle(tables)?;
    let Lowest { rounds, notes, .. } = lowest;
    Some(Risen {
        broken,
        rounds,
        rises: notes,
    })
}
