// A method's root in the lowest tables.
ghost use Rattle.std.specs.Prelude.{◌≡◌};
ghost use Rattle.solver.specs.Root.{root_in};

use crate::lowest::{Lowest, lowest_of};
use crate::method::{Method, Placed};
use crate::room::has_room;
use crate::rounds::starts_of;

// The grade of a method's root under a held set, in the lowest tables of the program that checked tables stand for; none where there is no such
// method, or no such held set of it. Of a declared method that is its body's grade, which its callers do not see. Tables that the engine has no
// room for, as no text gives them, have none.
pub fn lowest_root(tables: &[u8], method: usize, set: usize) -> Option<u8>
    ensures { result ≡ root_in tables.now method set }
{
    if !has_room(tables) {
        return None;
    }
    if frames::methods(tables) <= method {
        return None;
    }
    if frames::entries(frames::k(tables, method)) <= set {
        return None;
    }
    let placed = Placed {
        tables,
        starts: starts_of(tables),
    };
    let lowest: Lowest<()> = lowest_of(&placed);
    let method = Method {
        tables,
        number: method,
        first: placed.starts[method],
    };
    Some(method.root_grade(&lowest.grades, set as u8))
}
