// Grades each text that an argument names: writes the name, then the session's lines.
#![tactic(auto)]

use std::env::Env;
use std::io;
use std::rt::Files;

// The longest name of a file that is read.
const NAME_ROOM: usize = 256;

fn grade_text<R: Print>(rt: &R, text: &[u8]) -> io::Result<()> {
    let mut page = [0u8; session::LONGEST_SESSION];
    let count = session::session(text, &mut page);
    streams::print(&mut io::writer(rt), &page, count)
}

fn grade_file<R: Files + Print + Eprint>(rt: &R, name: &[u8]) -> io::Result<()> {
    let mut text = [0u8; session::FILE_ROOM];
    match streams::read_file(rt, name, &mut text) {
        Ok(length) => grade_text(rt, &text[..length]),
        Err(_) => Ok(()),
    }
}

fn grade_argument<R: Env + Files + Print + Eprint>(rt: &R, i: usize) -> io::Result<()> {
    let mut space = [0u8; NAME_ROOM];
    let n = streams::argument(rt, i, &mut space);
    let name = &space[..n];
    rt.write_all(name)?;
    rt.write_all(b"\n")?;
    grade_file(rt, name)
}

fn main(rt: HostRuntime) -> io::Result<()> {
    let count = streams::argument_count(&rt);
    for i in 1..count {
        grade_argument(&rt, i)?;
    }
    Ok(())
}
