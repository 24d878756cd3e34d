// The tables before a round, and the round at which an entry first got a grade, from the rounds of the rises.
ghost use Rattle.std.specs.Prelude.{◌≡◌, cond, suc, ◌+◌, ◌*◌, ◌≤◌, ◌<◌, ltb, length};
ghost use Rattle.frames.specs.Layout.{layout, answer_length};
ghost use Rattle.meaning.specs.Lowest.{rounds};
ghost use Rattle.solver.specs.Flat.{program_in};
ghost use Rattle.solver.specs.Rises.{rises_length};
ghost use Rattle.explainer.specs.Code.Lower.{Ready};
ghost use Rattle.explainer.specs.Code.Before.{risen_count, tables_at, round_at};

use frames::layout::{ANSWER_LENGTH, GRADES, MOST_GRADE};

// 1 if a rise came before a round, else 0.
fn risen_before(rise: u16, round: usize) -> u8
    ensures { (result ≡ cond (ltb rise round) 1 0) × (result ≤ 1) }
{
    u8::from(usize::from(rise) < round)
}

// Entry e of flat tables before a round: it has risen once for each grade that it has reached.
pub(crate) fn entry_before(rises: &[u16], e: usize, round: usize) -> u8
    requires { (length rises.now ≡ rises_length) × (e < answer_length) }
    ensures { (result ≡ risen_count rises.now e round) × (result ≤ layout.most_grade) }
{
    let at = MOST_GRADE * e;
    let low = risen_before(rises[at], round) + risen_before(rises[at + 1], round);
    let high = risen_before(rises[at + 2], round) + risen_before(rises[at + 3], round);
    low + high
}

// All entries before a round; those of methods that the program lacks stay 0.
pub(crate) fn tables_before<'a>(
    tables: &'a [u8],
    rises: &'a [u16],
    round: usize,
) -> [u8; ANSWER_LENGTH]
    requires { Ready tables.now rises.now × (1 ≤ round) × (round ≤ suc (rounds (program_in tables.now))) }
    ensures { result ≡ tables_at rises.now round }
{
    let used = GRADES * frames::methods(tables);
    let mut entries = [0u8; ANSWER_LENGTH];
    for e in 0..used {
        entries[e] = entry_before(rises, e, round);
    }
    entries
}

// The round at which an entry of an undeclared method first got a grade. Rounds count from 1, also for a grade of 0.
pub(crate) fn first_round(rises: &[u16], e: usize, grade: u8) -> usize
    requires { (length rises.now ≡ rises_length) × (e < answer_length) × (grade ≤ layout.most_grade) }
    ensures { result ≡ round_at rises.now e grade }
{
    if grade == 0 {
        return 1;
    }
    usize::from(rises[MOST_GRADE * e + (usize::from(grade) - 1)])
}
