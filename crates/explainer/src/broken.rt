// The reason of a text that a broken constraint refuses: of a declared method's body the chain of its root, over the lowest tables; else the reason of the
// entry that the constraint is about.
ghost use Rattle.std.specs.Prelude.{[], MatchOption, ◌≡◌, ◌<◌, length};
ghost use Rattle.meaning.specs.Constraints.{Entry, named_method};
ghost use Rattle.reasons.specs.Steps.{body_place};
ghost use Rattle.solver.specs.Flat.{program_in};
ghost use Rattle.checker.specs.Code.Steps.{solved_verdict};
ghost use Rattle.explainer.specs.Broken.{about_method, chain_about, broken_by, broken_steps, bytes_broken};
ghost use Rattle.explainer.specs.Code.Asked.{Gives};
ghost use Rattle.explainer.specs.Code.Broken.{GivesAny};
ghost use Rattle.explainer.specs.Code.Known.{IsKnown};
ghost use Rattle.explainer.specs.Code.Lower.{Read};
ghost use Rattle.explainer.specs.Code.Places.{place_of, PlaceIn};

use crate::asked::{Chain, entry_chain, is_entry, whole};
use crate::known::{Known, know};
use crate::lent::{Slot, fill};
use crate::places::{Place, at_root};
use crate::walk::Walk;

// A method's root in the lowest tables: those before a round that would come after the last.
fn body_place(known: &Known, method: usize, set: usize) -> Place
    requires known { IsKnown known.now }
    requires entry { Entry (program_in known.now.tables.bytes) method set }
    ensures { (place_of result ≡ body_place (program_in known.now.tables.bytes) method set) × PlaceIn known.now.tables.bytes result }
{
    at_root(&known.tables.bytes, method, set, known.risen.rounds + 1)
}

// Kind 1 is about a declared method's body, the others about an entry.
fn chain_about(known: &Known, method: usize, kind: usize, set: usize) -> Option<Chain>
    requires { IsKnown known.now }
    ensures { GivesAny known.now.tables.bytes known.now.risen.rises (chain_about (program_in known.now.tables.bytes) method kind set) result }
{
    if !is_entry(&known.tables.bytes, method, set) {
        return None;
    }
    if kind == 1 {
        let at = body_place(known, method, set);
        return Some(whole(known, Walk { at, entered: false }));
    }
    Some(entry_chain(known, method, set))
}

// The method that node n of method m names; 0 where there is no such node, as the definition has it.
fn named_method(tables: &[u8], m: usize, n: usize) -> usize
    requires { Read tables.now }
    ensures { result ≡ named_method (program_in tables.now) m n }
{
    if frames::methods(tables) <= m {
        return 0;
    }
    if frames::node_count(tables, m) <= n {
        return 0;
    }
    frames::used(tables, frames::first_frame(tables, m) + n)
}

// The method whose grade a constraint is about: for kind 3 the one that the fork starts.
fn about_method(tables: &[u8], method: usize, kind: usize, node: usize) -> usize
    requires { Read tables.now }
    ensures { result ≡ about_method (program_in tables.now) method kind node }
{
    if kind == 3 {
        return named_method(tables, method, node);
    }
    method
}

// The first broken constraint's chain.
fn find_broken(known: &Known) -> Option<Chain>
    requires { IsKnown known.now }
    ensures { GivesAny known.now.tables.bytes known.now.risen.rises (broken_by (solved_verdict known.now.tables.bytes) (program_in known.now.tables.bytes)) result }
{
    let broken = known.risen.broken?;
    let about = about_method(&known.tables.bytes, broken.method, broken.kind, broken.node);
    chain_about(known, about, broken.kind, broken.set)
}

// How many steps the reason of a text that is refused by 7 has; they are put at the front of the lent bytes, eight a step, if all of them have room.
// Any other text has none.
pub fn broken_bytes(text: &[u8], bytes: &mut [u8]) -> usize
    ensures value { result ≡ length (broken_steps text.now) }
    ensures bytes_after { bytes.new ≡ bytes_broken text.now bytes.old }
{
    let Ok(known) = know(text) else {
        return 0;
    };
    let Some(chain) = find_broken(&known) else {
        return 0;
    };
    if chain.count <= u8::room(bytes) {
        fill(&known, chain, bytes);
    }
    chain.count
}
