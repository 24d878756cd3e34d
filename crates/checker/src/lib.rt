// The one call: grade a text into a lent answer. Beside it, a root's grade in the lowest tables.
#![tactic(auto)]

mod numbers;
mod root;

ghost use Rattle.std.specs.Prelude.{◌≡◌, true, length};
ghost use Rattle.frames.specs.Layout.{answer_length};
ghost use Rattle.solver.specs.Room.{has_room};
ghost use Rattle.checker.specs.Grading.{verdict_of, answer_of};
ghost use Rattle.checker.specs.Code.Steps.{solved_verdict, solved_bytes};
ghost use Rattle.checker.specs.declared.Refusal.TheVariants.{Text};

use frames::layout::ANSWER_LENGTH;
pub use numbers::{NO_NUMBERS, Numbers, numbers_of};
pub use root::lowest_root;
pub use solver::Broken;

// A text that is accepted: how many methods it has, and how many rounds its grades took.
#[derive(Clone, Copy, Debug, PartialEq, Eq)]
pub struct Accepted {
    pub methods: usize,
    pub rounds: usize,
}

// Why a text is not accepted.
#[derive(Clone, Copy, Debug, PartialEq, Eq)]
pub enum Refusal {
    WrongLength,
    Text(frames::Refusal),
    Broken(Broken),
}

impl From<frames::Refusal> for Refusal {
    ghost from_gives = { λ r e. e ≡ Text r };

    fn from(refusal: frames::Refusal) -> Refusal {
        Refusal::Text(refusal)
    }
}

// "then 7": the verdict over tables that were read, and the answer.
fn solved(tables: &[u8], answer: &mut [u8]) -> Result<Accepted, Refusal>
    requires { (length answer.old ≡ answer_length) × (has_room tables.now ≡ true) }
    ensures value { result ≡ solved_verdict tables.now }
    ensures answer_after { answer.new ≡ solved_bytes tables.now answer.old }
{
    // No text gives tables that the engine has no room for.
    let solution = solver::solve(tables).unwrap();
    if let Some(broken) = solution.broken {
        return Err(Refusal::Broken(broken));
    }
    answer.copy_from_slice(&solution.grades);
    Ok(Accepted {
        methods: frames::methods(tables),
        rounds: solution.rounds,
    })
}

// "line by line, in each line 3, 4, 5, 6, then 7". A call of its own: what the lengths alone refuse then asks for no room for tables, nor the time to
// clear it.
#[inline(never)]
fn by_lines(text: &[u8], answer: &mut [u8]) -> Result<Accepted, Refusal>
    requires { length answer.old ≡ answer_length }
    ensures value { result ≡ verdict_of text.now (length answer.old) }
    ensures answer_after { answer.new ≡ answer_of text.now answer.old }
{
    let tables = frames::read(text)?;
    solved(&tables.bytes, answer)
}

// Grades a text. The answer has 1,024 bytes, entry h of method m at 16m + h and every other byte 0, if the text is accepted; a refusal
// leaves it as it was. "Order: 1, 2, then line by line, in each line 3, 4, 5, 6, then 7."
#[tactic(auto, using(crate::proofs::Laws::Grading::by_lengths))]
pub fn grade(text: &[u8], answer: &mut [u8]) -> Result<Accepted, Refusal>
    ensures value { result ≡ verdict_of text.now (length answer.old) }
    ensures answer_after { answer.new ≡ answer_of text.now answer.old }
{
    if answer.len() != ANSWER_LENGTH {
        return Err(Refusal::WrongLength);
    }
    // `read` says so too, with that room.
    if frames::layout::MOST_TEXT < text.len() {
        return Err(Refusal::Text(frames::Refusal::Overlong));
    }
    by_lines(text, answer)
}
