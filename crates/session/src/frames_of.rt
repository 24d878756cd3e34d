// The frames of an accepted text: the answer, one for each method.
ghost use Rattle.std.specs.Prelude.{◌≡◌, [], ◌++◌, ◌+◌, ◌*◌, ◌≤◌, ◌<◌, length, Ok};
ghost use Rattle.frames.specs.Layout.{answer_length};
ghost use Rattle.frames.specs.Tables.{cell, program_of};
ghost use Rattle.frames.specs.WellFormed.{WellFormed};
ghost use Rattle.checker.specs.Grading.{program_read, verdict_of};
ghost use Rattle.session.specs.Writing.{line_of};
ghost use Rattle.session.specs.Session.{method_frame, session_by, longest_method, longest_session};
ghost use Rattle.frames.specs.Program.{method_at};

use crate::figures::{high, low};
use crate::writing::Page;
use checker::Accepted;
use frames::layout::GRADES;

// The line of method m: 11, its number, its k, and its grades from the answer.
fn put_method(tables: &[u8], answer: &[u8], m: usize, page: &mut Page)
    requires well_formed { WellFormed (program_of (cell tables.now)) }
    requires m_in_bounds { m < length (program_of (cell tables.now)).methods }
    requires answer_len { length answer.now ≡ answer_length }
    requires room { length page.old + longest_method ≤ longest_session }
    ensures { page.new ≡ page.old ++ line_of (method_frame answer.now m (method_at (program_of (cell tables.now)) m).k) }
{
    let k = frames::k(tables, m);
    let start = GRADES * m;
    let end = start + frames::entries(k);
    page.put_bytes(&[0x11, low(m), low(k)]);
    page.put_bytes(&answer[start..end]);
    page.end_line();
}

// What is printed for an accepted text: the answer's line, then a line for each method. The text's tables are read again, for each method's k. A call of
// its own: grading has its room for tables on the stack before, and not beside it.
#[inline(never)]
pub(crate) fn put_accepted(text: &[u8], answer: &[u8], accepted: Accepted, page: &mut Page)
    requires verdict { verdict_of text.now answer_length ≡ Ok accepted }
    requires answer_len { length answer.now ≡ answer_length }
    requires front { page.old ≡ [] }
    ensures { page.new ≡ session_by (Ok accepted) (program_read text.now) answer.now }
{
    let tables = frames::read(text).unwrap();
    let Accepted { methods, rounds } = accepted;
    page.put_line(&[0x10, low(methods), high(rounds), low(rounds)]);
    for m in 0..methods {
        put_method(&tables.bytes, answer, m, page);
    }
}
