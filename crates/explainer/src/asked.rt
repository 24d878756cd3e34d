// What is asked: whether there is a reason, how many steps it has, and where it starts.
ghost use Rattle.std.specs.Prelude.{false, ◌≡◌, ◌<◌};
ghost use Rattle.meaning.specs.Constraints.{Entry};
ghost use Rattle.meaning.specs.Lowest.{is_entry};
ghost use Rattle.solver.specs.Flat.{program_in};
ghost use Rattle.explainer.specs.declared.asked.Refusal.TheVariants.{Text};
ghost use Rattle.explainer.specs.Explain.{steps_of};
ghost use Rattle.explainer.specs.Code.Known.{IsKnown};
ghost use Rattle.explainer.specs.Code.Lower.{Read};
ghost use Rattle.explainer.specs.Code.Walk.{Going, chain_of};
ghost use Rattle.explainer.specs.Code.Asked.{StartsAt, Gives, AskedOf};

use crate::before::entry_before;
use crate::known::Known;
use crate::lower::LOWER_LENGTH;
use crate::places::{at_root, root_place};
use crate::walk::{Walk, chain_length};
use frames::layout::GRADES;
use solver::Broken;

// Neither this nor the checker's has all of the other's cases. Why no steps are explained: a refusal of the text, as in grading; no such method or held set; too short a list, and how many steps it
// must have room for.
#[derive(Clone, Copy, Debug, PartialEq, Eq)]
pub enum Refusal {
    Text(frames::Refusal),
    Broken(Broken),
    NoEntry,
    TooShort(usize),
}

impl From<frames::Refusal> for Refusal {
    ghost from_gives = { λ why refusal. refusal ≡ Text why };

    fn from(why: frames::Refusal) -> Refusal {
        Refusal::Text(why)
    }
}

// How many steps a chain has, and where it starts.
#[derive(Clone, Copy)]
pub(crate) struct Chain {
    pub count: usize,
    pub walk: Walk,
}

// All steps from where a walk starts.
pub(crate) fn whole(known: &Known, walk: Walk) -> Chain
    requires { Going known.now.tables.bytes known.now.risen.rises walk × (walk.entered ≡ false) }
    ensures { Gives known.now.tables.bytes known.now.risen.rises (chain_of known.now.tables.bytes walk.at) result }
{
    let mut lower = [0u8; LOWER_LENGTH];
    let count = chain_length(&known.tables.bytes, &known.risen.rises, &mut lower, walk);
    Chain { count, walk }
}

// Where the reason for an entry starts: at its root in the first round at which it is final; a declared one at round 0.
fn first_walk(known: &Known, method: usize, set: usize) -> Walk
    requires known { IsKnown known.now }
    requires entry { Entry (program_in known.now.tables.bytes) method set }
    ensures { StartsAt known.now.tables.bytes known.now.risen.rises method set result }
{
    let tables = &known.tables.bytes;
    let rises = &known.risen.rises;
    let at = if frames::declared(tables, method) {
        at_root(tables, method, set, 0)
    } else {
        let grade = entry_before(rises, GRADES * method + set, known.risen.rounds + 1);
        root_place(tables, rises, method, set, grade)
    };
    Walk { at, entered: false }
}

// The reason for an entry.
pub(crate) fn entry_chain(known: &Known, method: usize, set: usize) -> Chain
    requires known { IsKnown known.now }
    requires entry { Entry (program_in known.now.tables.bytes) method set }
    ensures { Gives known.now.tables.bytes known.now.risen.rises (steps_of (program_in known.now.tables.bytes) method set) result }
{
    whole(known, first_walk(known, method, set))
}

// Whether the program has a method and the method the held set.
pub(crate) fn is_entry(tables: &[u8], method: usize, set: usize) -> bool
    requires { Read tables.now }
    ensures { result ≡ is_entry (program_in tables.now) method set }
{
    method < frames::methods(tables) && set < frames::entries(frames::k(tables, method))
}

// A broken constraint comes first, "10 if the method or held set doesn't exist, then 11 if the list is too short, with the count needed".
pub(crate) fn ask(known: &Known, method: usize, set: usize, room: usize) -> Result<Chain, Refusal>
    requires { IsKnown known.now }
    ensures { AskedOf known.now.tables.bytes known.now.risen.rises method set room result }
{
    if let Some(broken) = known.risen.broken {
        return Err(Refusal::Broken(broken));
    }
    if !is_entry(&known.tables.bytes, method, set) {
        return Err(Refusal::NoEntry);
    }
    let chain = entry_chain(known, method, set);
    if room < chain.count {
        return Err(Refusal::TooShort(chain.count));
    }
    Ok(chain)
}
