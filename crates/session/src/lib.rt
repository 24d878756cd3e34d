// The session: the bytes that the grading program prints for a text (document 01, "One whole session").
#![tactic(auto)]

mod breaches;
mod figures;
mod frames_of;
mod writing;

ghost use Rattle.std.specs.Prelude.{◌≡◌, length};
ghost use Rattle.session.specs.Page.{printed};
ghost use Rattle.session.specs.Session.{session_of};

pub use breaches::{BREACH_LENGTH, breach};
pub use figures::{high, low, refusal_frame};
use frames::layout::{ANSWER_LENGTH, GRADES, MOST_METHODS, MOST_TEXT};
use frames_of::put_accepted;
use writing::Page;
pub use writing::digits;

// Room for any text: of a longer one these bytes are enough, since it is refused for its length alone.
pub const TEXT_ROOM: usize = MOST_TEXT + 1;

// Twice as much where a file is read: a read that fails past the longest text is told too.
pub const FILE_ROOM: usize = 2 * MOST_TEXT;

// The longest line of a method: three bytes and its grades, two digits a byte, and the 0A.
pub const LONGEST_METHOD: usize = 2 * (3 + GRADES) + 1;

// The longest session: the answer's line, of four bytes, and a line for each method.
pub const LONGEST_SESSION: usize = 2 * 4 + 1 + MOST_METHODS * LONGEST_METHOD;

// The session.
fn print(text: &[u8]) -> Page
    ensures { result ≡ session_of text.now }
{
    let mut page = Page::new();
    let mut answer = [0u8; ANSWER_LENGTH];
    let verdict = checker::grade(text, &mut answer);
    match verdict {
        Ok(accepted) => put_accepted(text, &answer, accepted, &mut page),
        Err(_) => page.put_line(&refusal_frame(&checker::numbers_of(&verdict))),
    }
    page
}

// What is printed for a text, at the front of the lent buffer, and how many bytes that is. Where the buffer is too short it is left as it
// was, and the count says how long it must be.
pub fn session(text: &[u8], out: &mut [u8]) -> usize
    ensures value { result ≡ length (session_of text.now) }
    ensures out_after { out.new ≡ printed (session_of text.now) out.old }
{
    print(text).hand_out(out)
}
