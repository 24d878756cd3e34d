// The breach program: a text on standard input, the breach of a declaration on standard output if the text is refused for one, and
// nothing else there.
#![tactic(auto)]

use std::io;

// Where a read fails the text is not known, and nothing is printed.
//
// One function for this program and `grade` would take what prints as a closure and ask that it may be called, and no public function asks anything.
fn main(rt: HostRuntime) -> io::Result<()> {
    let mut text = [0u8; session::TEXT_ROOM];
    let length = streams::read_all(&mut rt.stdin(), &mut text)?;
    let mut page = [0u8; session::BREACH_LENGTH];
    let count = session::breach(&text[..length], &mut page);
    streams::print(&mut rt.stdout(), &page, count)
}
