// The lowest grades of a program's methods, and the first closed constraint that they break. Held sets and names are bytes: a loop's number that is one of
// them is cast, since no `From` narrows.
#![tactic(auto)]

mod constraints;
mod lowest;
mod method;
mod node;
mod rises;
mod room;
mod root;
mod rounds;

ghost use Rattle.std.specs.Prelude.{◌≡◌};
ghost use Rattle.solver.specs.Solved.{solved};

pub use constraints::Broken;
use frames::layout::ANSWER_LENGTH;
use lowest::{Lowest, settle};
pub use node::{Parts, combined, parts_of};
pub use rises::{NEVER, RISES, Risen, solve_rises};
pub use root::lowest_root;

// What a program comes to: its first broken constraint, if there is one, and the lowest grades, also where they break a constraint.
#[derive(Drop)]
pub struct Solved {
    pub broken: Option<Broken>,
    pub rounds: usize,
    pub grades: [u8; ANSWER_LENGTH],
}

// The lowest grades of the program that checked tables stand for; none of tables that the engine has no room for, as no text gives them.
pub fn solve(tables: &[u8]) -> Option<Solved>
    ensures { result ≡ solved tables.now }
{
    let (broken, lowest) = settle::<()>(tables)?;
    let Lowest { rounds, grades, .. } = lowest;
    Some(Solved {
        broken,
        rounds,
        grades,
    })
}
