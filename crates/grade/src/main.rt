// The grading program: a text on standard input, its session's frames on standard output, and nothing else there.
#![tactic(auto)]

use std::io;

// Where a read fails the text is not known, and nothing is printed.
fn main(rt: HostRuntime) -> io::Result<()> {
    let mut text = [0u8; session::TEXT_ROOM];
    let length = streams::read_all(&mut rt.stdin(), &mut text)?;
    let mut page = [0u8; session::LONGEST_SESSION];
    let count = session::session(&text[..length], &mut page);
    streams::print(&mut rt.stdout(), &page, count)
}
