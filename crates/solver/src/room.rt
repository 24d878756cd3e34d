// Whether the engine has room for checked tables: for their methods, their names, their nodes, and the locks of their synchronised nodes.
ghost use Rattle.std.specs.Prelude.{◌≡◌, ◌-◌};
ghost use Rattle.solver.specs.Room.{names_fit, lock_fits, locks_fit, has_room};

use frames::Op;
use frames::layout::{MOST_FRAMES, MOST_METHODS, MOST_NAMES};
use grades::held::NAMES;

fn names_fit(tables: &[u8], methods: usize) -> bool
    ensures { result ≡ names_fit tables.now methods }
{
    (0..methods).all(|m| frames::k(tables, m) <= MOST_NAMES)
}

// Whether a mask has a bit for the lock of the node in frame j, if it takes one.
fn lock_fits(tables: &[u8], j: usize) -> bool
    ensures { result ≡ lock_fits tables.now j }
{
    match frames::op_at(tables, j) {
        Op::Synchronised => frames::name(tables, j, 0) < usize::from(NAMES),
        _ => true,
    }
}

// Of the nodes from frame `first` up to frame `last`.
fn locks_fit(tables: &[u8], first: usize, last: usize) -> bool
    ensures { result ≡ locks_fit tables.now first (last - first) }
{
    (first..last).all(|j| lock_fits(tables, j))
}

pub(crate) fn has_room(tables: &[u8]) -> bool
    ensures { result ≡ has_room tables.now }
{
    let methods = frames::methods(tables);
    let first = frames::first_frame(tables, 0);
    let last = frames::first_frame(tables, methods);
    methods <= MOST_METHODS
        && last <= MOST_FRAMES
        && names_fit(tables, methods)
        && locks_fit(tables, first, last)
}
