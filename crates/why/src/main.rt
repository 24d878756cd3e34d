// Says why grades are what they are. The arguments ask any number of questions, one after another:
//     one FILE METHOD SET   a line `why METHOD SET`, then a line for each step, frame 13, or the refusal, frame 1F
//     all FILE              the same for each method and each of its held sets; of a refused text the refusal alone
//     broken FILE           of a text that is refused by 7 the steps behind the broken constraint; of any other nothing
// Of a file that cannot be read nothing is printed. What is no question ends the run.
#![tactic(auto)]

ghost use Rattle.std.specs.Prelude.{◌+◌, ◌<◌, ◌≤◌, ◌^◌, IfOk, IfSome, MatchResult};
ghost use Rattle.streams.specs.Counts.{IsPrefixLen};

use explainer::Refusal;
use frames::layout::{GRADES, MOST_METHODS};
use std::env::Env;
use std::io;
use std::rt::Files;
use streams::ReadFailed;

// Room for the steps of any reason, eight bytes each.
const MOST_BYTES: usize = 261904;

// Room for the name of a file. A longer argument counts as an empty name.
const NAME_ROOM: usize = 4096;

// Room for a word and for a number. A longer argument is neither.
const WORD_ROOM: usize = 8;

// A number that no method and no held set has; it stands for an argument that is none, and is printed as such in the question's line.
const NO_NUMBER: usize = 65535;

// What is asked for.
#[derive(Clone, Copy)]
enum Word {
    One,
    All,
    Broken,
}

impl Word {
    // How many arguments a question has.
    fn arguments(self) -> usize
        ensures { 0 < result }
    {
        match self {
            Word::One => 4,
            Word::All | Word::Broken => 2,
        }
    }
}

// ---- lines

// Writes the line of a frame: two digits a byte, and 0A.
fn write_line<R: Print>(rt: &R, frame: [u8; 9]) -> io::Result<()> {
    let mut line = [b'\n'; 19];
    for (two, byte) in line.chunks_exact_mut(2).zip(&frame) {
        two.copy_from_slice(&session::digits(*byte));
    }
    rt.write_all(&line)
}

// Writes a line for each of some steps, of eight bytes each.
fn write_steps<R: Print>(rt: &R, bytes: &[u8], count: usize) -> io::Result<()> {
    for step in bytes.chunks_exact(8).take(count) {
        let mut frame = [0x13; 9];
        frame[1..].copy_from_slice(step);
        write_line(rt, frame)?;
    }
    Ok(())
}

// Writes the steps of a reason, or the refusal.
fn write_reason<R: Print>(rt: &R, reason: &Result<usize, Refusal>, bytes: &[u8]) -> io::Result<()> {
    match *reason {
        Ok(count) => write_steps(rt, bytes, count),
        Err(_) => write_line(rt, session::refusal_frame(&explainer::numbers_of(reason))),
    }
}

// Writes the line `why METHOD SET`.
fn write_question<R: Print>(rt: &R, method: usize, set: usize) -> io::Result<()> {
    println!(rt; "why {method} {set}")
}

// ---- texts

fn explain_one<R: Print>(rt: &R, text: &[u8], method: usize, set: usize) -> io::Result<()> {
    let mut bytes = [0u8; MOST_BYTES];
    let reason = explainer::explain_bytes(text, method, set, &mut bytes);
    write_question(rt, method, set)?;
    write_reason(rt, &reason, &bytes)
}

// Explains an entry, and tells whether there is one. A refused text has none, and its refusal is written.
fn explain_entry<R: Print>(rt: &R, text: &[u8], method: usize, set: usize) -> io::Result<bool> {
    let mut bytes = [0u8; MOST_BYTES];
    let reason = explainer::explain_bytes(text, method, set, &mut bytes);
    if let Err(Refusal::NoEntry) = reason {
        return Ok(false);
    }
    if reason.is_ok() {
        write_question(rt, method, set)?;
    }
    write_reason(rt, &reason, &bytes)?;
    Ok(reason.is_ok())
}

// Explains a method's entries, and tells whether there are any.
fn explain_method<R: Print>(rt: &R, text: &[u8], method: usize) -> io::Result<bool> {
    for set in 0..GRADES {
        if !explain_entry(rt, text, method, set)? {
            return Ok(0 < set);
        }
    }
    Ok(true)
}

fn explain_all<R: Print>(rt: &R, text: &[u8]) -> io::Result<()> {
    for method in 0..MOST_METHODS {
        if !explain_method(rt, text, method)? {
            break;
        }
    }
    Ok(())
}

fn explain_broken<R: Print>(rt: &R, text: &[u8]) -> io::Result<()> {
    let mut bytes = [0u8; MOST_BYTES];
    let count = explainer::broken_bytes(text, &mut bytes);
    write_steps(rt, &bytes, count)
}

// ---- arguments

// A decimal number with a digit behind it, where that is one, below 1,000.
fn behind(n: usize, digit: u8) -> Option<usize> {
    match digit {
        b'0'..=b'9' if n < 100 => Some(10 * n + usize::from(digit - b'0')),
        _ => None,
    }
}

// A decimal number below 1,000. By hand: `parse` takes a sign too.
fn number(digits: &[u8]) -> Option<usize> {
    if digits.is_empty() {
        return None;
    }
    let mut n = 0;
    for digit in digits {
        n = behind(n, *digit)?;
    }
    Some(n)
}

// The number that argument i is.
fn number_at<R: Env>(rt: &R, i: usize) -> Option<usize> {
    let mut space = [0u8; WORD_ROOM];
    let n = streams::argument(rt, i, &mut space);
    number(&space[..n])
}

// What argument i asks for.
fn word_at<R: Env>(rt: &R, i: usize) -> Option<Word> {
    let mut space = [0u8; WORD_ROOM];
    let n = streams::argument(rt, i, &mut space);
    match &space[..n] {
        b"one" => Some(Word::One),
        b"all" => Some(Word::All),
        b"broken" => Some(Word::Broken),
        _ => None,
    }
}

// Reads the file that argument i names.
fn read_at<R: Env + Files + Eprint>(rt: &R, i: usize, text: &mut [u8]) -> Result<usize, ReadFailed>
    ensures { MatchResult result (λ count. IsPrefixLen count text.new) (λ failed. IsPrefixLen failed.count text.new) }
{
    let mut space = [0u8; NAME_ROOM];
    let n = streams::argument(rt, i, &mut space);
    streams::read_file(rt, &space[..n], text)
}

// Answers a question of a text; argument `end` is the first behind the question.
fn answer<R: Env + Print>(rt: &R, word: Word, text: &[u8], end: usize) -> io::Result<()>
    requires { 2 ≤ end }
{
    match word {
        Word::One => {
            let method = number_at(rt, end - 2).unwrap_or(NO_NUMBER);
            let set = number_at(rt, end - 1).unwrap_or(NO_NUMBER);
            explain_one(rt, text, method, set)
        }
        Word::All => explain_all(rt, text),
        Word::Broken => explain_broken(rt, text),
    }
}

// Answers the question that starts with argument i, where so many are left, and tells how many it has.
fn ask<R: Env + Files + Print + Eprint>(rt: &R, i: usize, left: usize) -> io::Result<Option<usize>>
    requires { (0 < i) × (i + left < 2 ^ 64) }
    ensures { IfOk result (λ asked. IfSome asked (λ count. (0 < count) × (count ≤ left))) }
{
    let Some(word) = word_at(rt, i) else {
        return Ok(None);
    };
    let count = word.arguments();
    if left < count {
        return Ok(None);
    }
    let mut text = [0u8; session::FILE_ROOM];
    if let Ok(length) = read_at(rt, i + 1, &mut text) {
        answer(rt, word, &text[..length], i + count)?;
    }
    Ok(Some(count))
}

fn main(rt: HostRuntime) -> io::Result<()> {
    let count = streams::argument_count(&rt);
    let mut i = 1;
    // No `for`: how many arguments a question has is known only once it is answered.
    while i < count {
        let Some(asked) = ask(&rt, i, count - i)? else {
            break;
        };
        i += asked;
    }
    Ok(())
}
