// What programs read and write, into what is lent: nothing is allocated here either. Only a read of 0 bytes ends an input: where a read fails it is unknown what else there was.
#![tactic(auto)]

ghost use Rattle.std.specs.Io.KnownBytes.{Appends, Keeps};
ghost use Rattle.std.specs.Prelude.{◌≡◌, ◌<◌, ◌≤◌, length, take, IfOk, IfSome, MatchResult, OnOk};
ghost use Rattle.streams.specs.Counts.{IsPrefixLen};

use std::env::{Env, FillError};
use std::io::{ErrorKind, Read, Write};
use std::rt::Files;
use std::{fs, io, str};

// Why a read failed, and how many bytes had been put at the start of the buffer before it.
#[derive(Debug, Drop)]
pub struct ReadFailed {
    pub count: usize,
    pub error: io::Error,
}

impl From<ReadFailed> for io::Error {
    ghost from_gives = { λ failed error. error ≡ failed.error };

    fn from(failed: ReadFailed) -> Self {
        failed.error
    }
}

// Reads until the input ends, the buffer is full or a read fails, as one does that a signal interrupts, and tells how many bytes were put at the
// start of the buffer. Where it is known what the reader gives, and no read failed, that stands in the buffer, as far as it has room. Which
// bytes come from outside no contract can say.
pub fn read_all<R: Read>(reader: &mut R, buffer: &mut [u8]) -> Result<usize, ReadFailed>
    ensures count { MatchResult result (λ count. IsPrefixLen count buffer.new) (λ failed. IsPrefixLen failed.count buffer.new) }
    ensures whole { IfOk result (λ count. IfSome (R.remaining reader.old) (λ bytes. take count buffer.new ≡ take (length buffer.new) bytes)) }
{
    let mut count: usize = 0;
    // No `for`: how far a turn gets is for the reader to say.
    while count < buffer.len() {
        match reader.read(&mut buffer[count..]) {
            Ok(0) => break,
            Ok(more) => count += more,
            Err(error) => return Err(ReadFailed { count, error }),
        }
    }
    Ok(count)
}

// The same of the file of a name. Where it is not opened, or a read fails, standard error tells why.
pub fn read_file<R: Files + Eprint>(
    rt: &R,
    name: &[u8],
    buffer: &mut [u8],
) -> Result<usize, ReadFailed>
    ensures { MatchResult result (λ count. IsPrefixLen count buffer.new) (λ failed. IsPrefixLen failed.count buffer.new) }
{
    let read = match open(rt, name) {
        Ok(mut file) => read_all(&mut file, buffer),
        Err(error) => Err(ReadFailed { count: 0, error }),
    };
    if let Err(failed) = &read {
        tell(rt, name, failed.error);
    }
    read
}

// Opens the file of a name. Names are UTF-8: there is no other way to a file.
fn open<R: Files>(rt: &R, name: &[u8]) -> io::Result<R::File> {
    match str::from_utf8(name) {
        Ok(name) => fs::open(rt, name),
        Err(_) => Err(io::Error::from(ErrorKind::InvalidFilename)),
    }
}

// Tells on standard error what failed, and why. Where that cannot be written either there is nobody to tell it to.
fn tell<R: Eprint>(rt: &R, name: &[u8], error: io::Error) {
    let mut room = [0u8; 256];
    let why = words(error, &mut room);
    let _ = match str::from_utf8(name) {
        Ok(name) => eprintln!(rt; "{name}: {why}"),
        Err(_) => eprintln!(rt; "{}: {why}", name.escape_ascii()),
    };
}

// An error in words, put at the front of the room. Those of the system's errors have the number behind them, which is left out.
fn words(error: io::Error, room: &mut [u8]) -> &str {
    let length = room.len();
    let mut rest = &mut room[..];
    let _ = write!(rest, "{error}");
    let count = length.saturating_sub(rest.len());
    let text = str::from_utf8(&room[..count]).unwrap_or("");
    match text.split_once(" (os error ") {
        Some((words, _)) => words,
        None => text,
    }
}

// How many arguments there are, the program's own name among them.
pub fn argument_count<R: Env>(rt: &R) -> usize {
    for i in 0..usize::MAX {
        if let Err(FillError::NotPresent) = rt.arg(i, &mut []) {
            return i;
        }
    }
    usize::MAX
}

// Puts an argument at the start of the buffer, and tells its length: 0 where there is none, and where it is longer than the buffer, since no
// caller tells these from an empty one.
pub fn argument<R: Env>(rt: &R, i: usize, buffer: &mut [u8]) -> usize
    ensures { IsPrefixLen result buffer.new }
{
    rt.arg(i, buffer).unwrap_or(0)
}

// Writes the front of a page; nothing where the page has fewer bytes. That it arrived at standard output no contract can say.
pub fn print<W: Write>(out: &mut W, page: &[u8], count: usize) -> io::Result<()>
    ensures front { count ≤ length page.now → OnOk result (Appends (W.contents out.old) (W.contents out.new) (take count page.now)) }
    ensures nothing { length page.now < count → OnOk result (Keeps (W.contents out.old) (W.contents out.new)) }
{
    if count <= page.len() {
        out.write_all(&page[..count])?;
    }
    Ok(())
}

#[cfg(test)]
mod tests {
    use super::*;

    // Gives two bytes, and from then on its reads fail.
    #[derive(Drop)]
    struct Torn {
        given: bool,
    }

    impl Read for Torn {
        fn read(&mut self, buf: &mut [u8]) -> io::Result<usize> {
            if self.given {
                return Err(io::Error::from(ErrorKind::Interrupted));
            }
            self.given = true;
            let Some(room) = buf.get_mut(..2) else {
                return Ok(0);
            };
            room.copy_from_slice(b"ab");
            Ok(2)
        }
    }

    // A read that fails is no end.
    #[test]
    fn tells_of_a_failed_read(rt: HostRuntime) {
        let mut buffer = [0u8; 8];
        let read = read_all(&mut Torn { given: false }, &mut buffer);
        assert_eq!(rt; read.map_err(|failed| failed.count).err(), Some(2));
        assert_eq!(rt; &buffer[..2], b"ab".as_slice());
    }

    #[test]
    fn reads_to_the_end_or_as_far_as_there_is_room(rt: HostRuntime) {
        let mut buffer = [0u8; 3];
        let whole = read_all(&mut b"ab".as_slice(), &mut buffer);
        assert_eq!(rt; whole.ok(), Some(2));
        let full = read_all(&mut b"abcd".as_slice(), &mut buffer);
        assert_eq!(rt; full.ok(), Some(3));
        assert_eq!(rt; &buffer[..], b"abc".as_slice());
    }

    #[test]
    fn prints_the_front(rt: HostRuntime) -> io::Result<()> {
        let mut out = Vec::new(rt.alloc());
        print(&mut out, b"abc", 2)?;
        print(&mut out, b"abc", 4)?;
        assert_eq!(rt; out.as_slice(), b"ab".as_slice());
        Ok(())
    }
}
