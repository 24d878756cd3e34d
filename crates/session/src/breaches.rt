// The breach of a declaration: the declared grade and the body's own, where refusal 7 names kind 1.
ghost use Rattle.std.specs.Prelude.{◌≡◌, [], ◌≤◌, length};
ghost use Rattle.meaning.specs.Lowest.{declared_table};
ghost use Rattle.checker.specs.Grading.{program_read};
ghost use Rattle.session.specs.Writing.{line_of};
ghost use Rattle.session.specs.Page.{printed};
ghost use Rattle.session.specs.Breach.{breach_length, breach_frame, breach_of};
ghost use Rattle.session.specs.BreachFacts.{Breach};

use crate::figures::low;
use crate::writing::Page;
use checker::Refusal;
use frames::layout::ANSWER_LENGTH;

// How many bytes a breach's line has: ten digits and 0A.
pub const BREACH_LENGTH: usize = 11;

// The kind of the constraint that a declared method's body keeps to its declaration.
const DECLARED: usize = 1;

// The declared grade. The text's tables are read again for it.
fn declared_grade(text: &[u8], method: usize, set: usize) -> u8
    requires { Breach text.now method set }
    ensures { result ≡ declared_table (program_read text.now) method set }
{
    let tables = frames::read(text).unwrap();
    frames::entry(&tables.bytes, method, set) as u8
}

// The line of a breach. Its method has that held set, so there is a root's grade. A call of its own, as `put_accepted` is.
#[inline(never)]
fn put_breach(text: &[u8], method: usize, set: usize, page: &mut Page)
    requires breach { Breach text.now method set }
    requires front { page.old ≡ [] }
    ensures { page.new ≡ line_of (breach_frame (program_read text.now) method set) }
{
    let root = checker::lowest_root(text, method, set).unwrap();
    let declared = declared_grade(text, method, set);
    page.put_line(&[0x1E, low(method), low(set), declared, root]);
}

// The breach.
fn print_breach(text: &[u8]) -> Page
    ensures value { result ≡ breach_of text.now }
    ensures fits { length result ≤ breach_length }
{
    let mut page = Page::new();
    let mut answer = [0u8; ANSWER_LENGTH];
    let Err(refusal) = checker::grade(text, &mut answer) else {
        return page;
    };
    if let Refusal::Broken(broken) = refusal {
        if broken.kind == DECLARED {
            put_breach(text, broken.method, broken.set, &mut page);
        }
    }
    page
}

// What is printed of a broken declaration, at the front of the lent buffer, and how many bytes that is: a line for a text that is refused by
// 7 with kind 1, none for every other. Where the buffer is too short it is left as it was, and the count says how long it must be.
pub fn breach(text: &[u8], out: &mut [u8]) -> usize
    ensures value { result ≡ length (breach_of text.now) }
    ensures out_after { out.new ≡ printed (breach_of text.now) out.old }
{
    print_breach(text).hand_out(out)
}
