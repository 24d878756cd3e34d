// A root's grade in the lowest tables of a text's program.
ghost use Rattle.std.specs.Prelude.{◌≡◌};
ghost use Rattle.checker.specs.RootRead.{root_read};

// The grade of a method's root under a held set; none where the text does not read, or has no such method or held set. A text that is
// refused by 7 has its lowest tables too.
pub fn lowest_root(text: &[u8], method: usize, set: usize) -> Option<u8>
    ensures { result ≡ root_read text.now method set }
{
    let Ok(tables) = frames::read(text) else {
        return None;
    };
    solver::lowest_root(&tables.bytes, method, set)
}
