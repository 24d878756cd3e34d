// Lines of digits, places in a text, and the reader: a lent text and the place reached in it, together in one record, which gives out the next
// frame (document 01, "Frames"). The work stands in `frame_at`, over a plain slice and the place.
#![tactic(auto)]

mod lines;

ghost use Rattle.std.specs.Prelude.{◌≡◌};
ghost use Rattle.lines.specs.Reader.{start, frame_at, opened, next_frame, moved_to};

pub use lines::{frame_length, line_byte};

// A place in a text: how many bytes stand before it, and the number of its line, from 1.
#[derive(Clone, Copy)]
pub struct Place {
    pub at: usize,
    pub line: usize,
}

// The text, and the place reached in it.
#[derive(Clone, Copy)]
pub struct Reader<'a> {
    pub text: &'a [u8],
    pub place: Place,
}

// The frame of a line: where the line stands, how many bytes it has (0 if it is malformed), and the place after it.
#[derive(Clone, Copy)]
pub struct Frame {
    pub place: Place,
    pub bytes: usize,
    pub after: Place,
}

// What stands at a place of a text; none at its end.
pub fn frame_at(text: &[u8], place: Place) -> Option<Frame>
    ensures { result ≡ frame_at text.now place }
{
    if text.len() <= place.at {
        return None;
    }
    let after = place.past_line(text);
    let end = after.at;
    let bytes = frame_length(&text[place.at..end]);
    Some(Frame {
        place,
        bytes,
        after,
    })
}

// The first frame of a text.
pub fn first(text: &[u8]) -> Option<Frame>
    ensures { result ≡ frame_at text.now start }
{
    Reader::new(text).next()
}

impl<'a> Reader<'a> {
    // The whole text, before its first line.
    pub fn new(text: &'a [u8]) -> Reader<'a>
        ensures { result ≡ opened text.entry }
    {
        Reader {
            text,
            place: Place { at: 0, line: 1 },
        }
    }

    // The next frame: what stands at the place reached.
    pub fn next(self) -> Option<Frame>
        ensures { result ≡ next_frame self.entry }
    {
        frame_at(self.text, self.place)
    }

    // The same text at another place: past a frame, that is the place after it.
    pub fn moved(self, place: Place) -> Reader<'a>
        ensures { result ≡ moved_to self.entry place }
    {
        Reader { place, ..self }
    }
}
