// The library for programs in other languages: functions on numbers, byte slices and a slice of steps. A slice passes as a pointer and
// then a length.
#![tactic(auto)]

ghost use Rattle.std.specs.Prelude.{◌≡◌, length};
ghost use Rattle.session.specs.Session.{session_of};
ghost use Rattle.session.specs.Page.{printed};
ghost use Rattle.explainer.specs.Explain as explain;
ghost use Rattle.exports.specs.Record.{record_of, returned, answered, recorded, reason_returned, reason_steps, reason_recorded};

use checker::Numbers;
use explainer::{Refusal, Step};
use session::{high, low};

// A record's eleven bytes: refusal number; line; method; kind; fork node; held set; methods; rounds. Line, node and rounds take two bytes
// each, the high one first.
fn record(n: &Numbers) -> [u8; 11]
    ensures { result ≡ record_of n.now }
{
    [
        n.number,
        high(n.line),
        low(n.line),
        low(n.method),
        low(n.kind),
        high(n.node),
        low(n.node),
        low(n.set),
        low(n.methods),
        high(n.rounds),
        low(n.rounds),
    ]
}

// How many steps a reason has, or a list must have room for.
fn count(reason: &Result<usize, Refusal>) -> usize
    ensures { result ≡ (explain.numbers_of reason.now).count }
{
    match *reason {
        Ok(count) | Err(Refusal::TooShort(count)) => count,
        Err(_) => 0,
    }
}

// 255 stands for an error in these functions, as C has no `Result`.

// Grades a text into an answer and a record of eleven bytes, and gives the refusal's number. A record of any other length gives 255, and then nothing
// is written.
#[unsafe(no_mangle)]
pub extern "C" fn ikhzorvan_grade(text: &[u8], answer: &mut [u8], page: &mut [u8]) -> u8
    ensures value { result ≡ returned text.now (length answer.old) (length page.old) }
    ensures answer_after { answer.new ≡ answered text.now answer.old (length page.old) }
    ensures page_after { page.new ≡ recorded text.now (length answer.old) page.old }
{
    if page.len() != 11 {
        return 255;
    }
    let numbers = checker::numbers_of(&checker::grade(text, answer));
    page.copy_from_slice(&record(&numbers));
    numbers.number
}

// Writes the reason for a method's grade under a held set to the front of a list of steps, and a record of thirteen bytes, and gives
// the refusal's number: the record's eleven, methods and rounds 0, and behind them how many steps, in two bytes. A record of any other length
// gives 255, and then nothing is written.
#[unsafe(no_mangle)]
pub extern "C" fn ikhzorvan_explain(
    text: &[u8],
    method: usize,
    set: usize,
    steps: &mut [Step],
    page: &mut [u8],
) -> u8
    ensures value { result ≡ reason_returned text.now method set (length steps.old) (length page.old) }
    ensures steps_after { steps.new ≡ reason_steps text.now method set steps.old (length page.old) }
    ensures page_after { page.new ≡ reason_recorded text.now method set (length steps.old) page.old }
{
    if page.len() != 13 {
        return 255;
    }
    let reason = explainer::explain(text, method, set, steps);
    let numbers = explainer::numbers_of(&reason);
    let count = count(&reason);
    let (front, behind) = page.split_at_mut(11);
    front.copy_from_slice(&record(&numbers));
    behind.copy_from_slice(&[high(count), low(count)]);
    numbers.number
}

// The bytes that the grading program prints for a text.
#[unsafe(no_mangle)]
pub extern "C" fn ikhzorvan_session(text: &[u8], out: &mut [u8]) -> usize
    ensures value { result ≡ length (session_of text.now) }
    ensures out_after { out.new ≡ printed (session_of text.now) out.old }
{
    session::session(text, out)
}
