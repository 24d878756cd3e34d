// What an access of a field costs (document 01, "What each node means").
ghost use Rattle.std.specs.Prelude.{◌≡◌};
ghost use Rattle.grades.specs.Access.{unprotected, guarded, read_access, write_access, access};
ghost use Rattle.grades.specs.Guards.{guard_named, guard_number};

// An access without protection: atomic for a narrow field, cmpd for a wide one. Width and guard are numbers, since the promises have an answer for each.
pub fn unprotected(width: u8) -> u8
    ensures { result ≡ unprotected width }
{
    if width == 0 { 2 } else { 3 }
}

// A guarded field, read and write alike.
#[tactic(auto, unfolding(crate::specs::Access::guarded))]
fn guarded(held: bool) -> u8
    ensures { result ≡ guarded held }
{
    if held { 1 } else { 4 }
}

// How a field is guarded. A number that names no guard permits nothing.
#[derive(Clone, Copy, Debug, PartialEq, Eq)]
enum Guard {
    Final,
    Guarded,
    WriteGuarded,
    Unguarded,
    Unknown,
}

impl From<u8> for Guard {
    ghost from_gives = { λ number guard. guard ≡ guard_named number };

    #[tactic(auto, using(crate::proofs::Laws::Guards::unknown_past), unfolding(crate::specs::Guards::guard_named))]
    fn from(number: u8) -> Guard {
        match number {
            0 => Guard::Final,
            1 => Guard::Guarded,
            2 => Guard::WriteGuarded,
            3 => Guard::Unguarded,
            _ => Guard::Unknown,
        }
    }
}

#[tactic(auto, unfolding(crate::specs::Access::read_access))]
fn read_access(width: u8, guard: Guard, held: bool) -> u8
    ensures { result ≡ read_access width (guard_number guard) held }
{
    match guard {
        Guard::Final => 0,
        Guard::Guarded => guarded(held),
        Guard::WriteGuarded => if held { 1 } else { unprotected(width) },
        Guard::Unguarded => unprotected(width),
        Guard::Unknown => 4,
    }
}

#[tactic(auto, unfolding(crate::specs::Access::write_access))]
fn write_access(width: u8, guard: Guard, held: bool) -> u8
    ensures { result ≡ write_access width (guard_number guard) held }
{
    match guard {
        Guard::Final => 4,
        Guard::Guarded => guarded(held),
        Guard::WriteGuarded => if held { unprotected(width) } else { 4 },
        Guard::Unguarded => unprotected(width),
        Guard::Unknown => 4,
    }
}

// Guards: 0 final, 1 guarded, 2 write-guarded, 3 none. Any other permits nothing.
#[tactic(auto, using(crate::proofs::Laws::Guards::read_named, crate::proofs::Laws::Guards::write_named), unfolding(crate::specs::Access::access))]
pub fn access(width: u8, guard: u8, write: bool, held: bool) -> u8
    ensures { result ≡ access width guard write held }
{
    let guard = Guard::from(guard);
    if write {
        write_access(width, guard, held)
    } else {
        read_access(width, guard, held)
    }
}
