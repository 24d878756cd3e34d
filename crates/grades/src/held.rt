// Held sets as masks: bit j says that name j is held. A byte's mask carries names 0 to 7.
ghost use Rattle.std.specs.Prelude.{◌≡◌};
ghost use Rattle.grades.specs.HeldSets.{mask_names, held, add_within};

// How many names a mask carries.
pub const NAMES: u8 = 8;

// FF, where a caller has no constant name for a lock. It is the FF of `frames::layout`, as a byte: neither crate knows the other.
pub const NO_NAME: u8 = 255;

// Whether a name is in the set. FF, and any other number that the mask has no bit for, is in no set.
pub fn holds(set: u8, name: u8) -> bool
    ensures { result ≡ held set name }
{
    name < NAMES && (set >> name) & 1 == 1
}

// The set with a name added. A number that the mask has no bit for adds nothing.
pub fn with_name(set: u8, name: u8) -> u8
    ensures { result ≡ add_within mask_names set name }
{
    if name < NAMES { set | (1 << name) } else { set }
}
