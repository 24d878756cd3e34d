// The whole: what is asked, and the steps put into what the caller lends.
ghost use Rattle.std.specs.Prelude.{ℕ, List, [], ◌∷◌, ◌++◌, ◌/◌, ◌≤◌, ◌<◌, ◌≡◌, length};
ghost use Rattle.explainer.specs.declared.walk.Step.{Step};
ghost use Rattle.explainer.specs.Explain.{reason_of, list_of, left_by, steps_of, steps_over};
ghost use Rattle.explainer.specs.Code.Asked.{Gives};
ghost use Rattle.explainer.specs.Code.Walk.{chain_of};
ghost use Rattle.explainer.specs.Code.Lent.{over_none};
ghost use Rattle.checker.specs.Grading.{program_read};

use crate::asked::{Chain, Refusal, ask};
use crate::known::{Known, know};
use crate::lower::LOWER_LENGTH;
use crate::walk::{Step, give};

// What steps are put into: a list of steps, or bytes.
pub(crate) trait Slot: Drop {
    // How many steps there is room for.
    ghost room_of: { List Self → ℕ };

    // Some steps at the front, and the rest as it was.
    ghost over: { List Step → List Self → List Self };

    fn room(slots: &[Self]) -> usize
        ensures { result ≡ room_of slots.now };

    // One step more, behind i others.
    fn put(slots: &mut [Self], i: usize, step: Step)
        requires { i < room_of slots.old }
        ensures room_kept { room_of slots.new ≡ room_of slots.old }
        ensures put { (steps : List Step) (old : List Self) → length steps ≡ i → slots.old ≡ over steps old → slots.new ≡ over (steps ++ step ∷ []) old };

    ghost none: { (old : List Self) → over [] old ≡ old };
}

impl Slot for Step {
    ghost room_of = { length };

    ghost over = { steps_over };

    ghost none = { over_none };

    fn room(slots: &[Step]) -> usize {
        slots.len()
    }

    fn put(slots: &mut [Step], i: usize, step: Step) {
        slots[i] = step;
    }
}

// The steps of a chain, from the front on.
pub(crate) fn fill<T: Slot>(known: &Known, chain: Chain, slots: &mut [T])
    requires gives { Gives known.now.tables.bytes known.now.risen.rises (chain_of known.now.tables.bytes chain.walk.at) chain }
    requires room { chain.count ≤ T.room_of slots.old }
    ensures { slots.new ≡ T.over (chain_of known.now.tables.bytes chain.walk.at) slots.old }
{
    let mut lower = [0u8; LOWER_LENGTH];
    // Only the step before says whether there is one more, and where: so the place that it goes to is counted beside it.
    let mut next = Some(chain.walk);
    let mut i = 0;
    while let Some(walk) = next {
        let given = give(&known.tables.bytes, &known.risen.rises, &mut lower, walk);
        T::put(slots, i, given.step);
        next = given.next;
        i += 1;
    }
}

// The steps of the reason for a method's grade under a held set, at the front of what is lent; after a refusal that is as it was.
pub(crate) fn explain_into<T: Slot>(
    text: &[u8],
    method: usize,
    set: usize,
    slots: &mut [T],
) -> Result<usize, Refusal>
    ensures value { result ≡ reason_of text.now method set (T.room_of slots.old) }
    ensures slots_after { slots.new ≡ left_by (reason_of text.now method set (T.room_of slots.old)) (T.over (steps_of (program_read text.now) method set) slots.old) slots.old }
{
    let known = know(text)?;
    let chain = ask(&known, method, set, T::room(slots))?;
    fill(&known, chain, slots);
    Ok(chain.count)
}

// The steps of the reason for a method's grade under a held set, at the front of a list, and how many they are; after a refusal the list is
// as it was.
pub fn explain(text: &[u8], method: usize, set: usize, steps: &mut [Step]) -> Result<usize, Refusal>
    ensures value { result ≡ reason_of text.now method set (length steps.old) }
    ensures steps_after { steps.new ≡ list_of text.now method set steps.old }
{
    explain_into(text, method, set, steps)
}
