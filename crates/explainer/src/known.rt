// A text's tables, and what their program comes to.
ghost use Rattle.std.specs.Prelude.{Ok, Err, MatchResult, ◌≡◌};
ghost use Rattle.frames.specs.Reading.{read_text};
ghost use Rattle.solver.specs.Rises.{risen_in};
ghost use Rattle.explainer.specs.Code.Known.{IsKnown};

use frames::Tables;
use solver::Risen;

// That they are what a text was read to is said clause by clause: a ghost field holds none but facts that have one proof at most, and that a program
// is well formed is not such a fact.
#[derive(Drop)]
pub(crate) struct Known {
    pub tables: Tables,
    pub risen: Risen,
}

// `frames::read` and `solver::solve_rises`, each as a call of its own: what one has on the stack is then gone before the other has what it needs.
#[inline(never)]
fn read(text: &[u8]) -> Result<Tables, frames::Refusal>
    ensures { result ≡ read_text text.now }
{
    frames::read(text)
}

#[inline(never)]
fn solve_rises(tables: &[u8]) -> Option<Risen>
    ensures { result ≡ risen_in tables.now }
{
    solver::solve_rises(tables)
}

// Of a text, if it reads. The solver has room for all tables that a text gives.
pub(crate) fn know(text: &[u8]) -> Result<Known, frames::Refusal>
    ensures { MatchResult result (λ known. (read_text text.now ≡ Ok known.tables) × IsKnown known) (λ why. read_text text.now ≡ Err why) }
{
    let tables = read(text)?;
    let risen = solve_rises(&tables.bytes).unwrap();
    Ok(Known { tables, risen })
}
