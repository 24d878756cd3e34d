// Lines of digits, two a byte, each ended by 0A.
ghost use Rattle.std.specs.Prelude.{◌≡◌, ◌&&◌, ◌+◌, ◌≤◌, ◌<◌, length, get_or, drop, MatchOption};
ghost use Rattle.lines.specs.Lines.{line_length, digit, is_digit, bytes, frame_length};
ghost use Rattle.lines.specs.Places.{past_line};

use crate::Place;

const NEWLINE: u8 = b'\n';

// What a digit stands for.
#[tactic(auto, unfolding(crate::specs::Lines::digit))]
fn digit(c: u8) -> Option<u8>
    ensures { MatchOption result (digit c ≡ 16) (λ d. (d ≡ digit c) × (d < 16)) }
{
    match c {
        b'0'..=b'9' => Some(c - b'0'),
        b'A'..=b'F' => Some(c - b'A' + 10),
        _ => None,
    }
}

fn is_digit(c: u8) -> bool
    ensures { result ≡ is_digit c }
{
    digit(c).is_some()
}

// Two digits, which stand for a byte.
fn is_pair(high: u8, low: u8) -> bool
    ensures { result ≡ (is_digit high && is_digit low) }
{
    is_digit(high) && is_digit(low)
}

// Where the line that starts at `at` ends, past its 0A.
fn line_end(text: &[u8], at: usize) -> usize
    requires { at ≤ length text.now }
    ensures { result ≡ at + line_length (drop at text.now) }
{
    for i in at..text.len() {
        if text[i] == NEWLINE {
            return i + 1;
        }
    }
    text.len()
}

impl Place {
    // The place after the line that stands here; at the text's end the place stays. The largest line number stays too.
    #[tactic(auto, unfolding(crate::specs::Places::past_line))]
    pub fn past_line(self, text: &[u8]) -> Place
        ensures { result ≡ past_line text.now self }
    {
        if text.len() <= self.at {
            return self;
        }
        Place {
            at: line_end(text, self.at),
            line: self.line.saturating_add(1),
        }
    }
}

// How many bytes a line has; 0 if it is malformed. It is no option: a line of no byte is malformed by the rule itself, and the
// definitions of frames cite this number.
pub fn frame_length(line: &[u8]) -> usize
    ensures { result ≡ frame_length line.now }
{
    let pairs = line.len() / 2;
    for i in 0..pairs {
        if !is_pair(line[2 * i], line[2 * i + 1]) {
            return 0;
        }
    }
    if line.len() % 2 == 0 {
        return 0;
    }
    if line[2 * pairs] == NEWLINE { pairs } else { 0 }
}

// What a byte of a pair counts for: 16 if it is no digit, as the definition `bytes` has it.
fn digit_or_16(c: u8) -> usize
    ensures { (result ≡ digit c) × (result ≤ 16) }
{
    usize::from(digit(c).unwrap_or(16))
}

// Byte b of a line, whatever stands in it; 0 past its pairs.
pub fn line_byte(line: &[u8], b: usize) -> usize
    ensures { result ≡ get_or (bytes line.now) b 0 }
{
    if line.len() / 2 <= b {
        return 0;
    }
    let high = digit_or_16(line[2 * b]);
    let low = digit_or_16(line[2 * b + 1]);
    16 * high + low
}
