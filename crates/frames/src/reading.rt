// Reading a text: line by line, in each line refusals 3, 4, 5, 6.
ghost use Rattle.std.specs.Prelude.{◌≡◌, ◌+◌, ◌*◌, ◌≤◌, ◌<◌, cond, eqb, length, drop};
ghost use Rattle.std.proofs.Math.Seq.{paste};
ghost use Rattle.frames.specs.Layout.{layout, tables_length};
ghost use Rattle.lines.specs.Lines.{lines, bytes, frame_length};
ghost use Rattle.frames.specs.Frames.{due, kind_of, length_of, placed};
ghost use Rattle.frames.specs.Tables.{cell};
ghost use Rattle.frames.specs.Reading.{refusal_of, read_text};
ghost use Rattle.frames.specs.Refusals.{number_of, line_of, number_read, line_read};
ghost use Rattle.frames.specs.Code.Steps.{Taken, next_node, next_stand, surplus, OneRead};
ghost use Rattle.counting.specs.Counting.{zeros};
ghost use Rattle.lines.specs.Places.{line_from};

use crate::accessors::{fields, methods, node_count, nodes};
use crate::layout::{
    FIELD_KIND, FIELD_LENGTH, HEADER_KIND, HEADER_LENGTH, METHOD_KIND, METHOD_LENGTH, MOST_NODES,
    MOST_TEXT, NODE_KIND, NODE_LENGTH, STRIDE, TABLES_LENGTH,
};
use crate::links::linked;
use crate::ranges::in_range;
use crate::{Due, Fault, OneText, Refusal, Stand, Tables};
use lines::{Place, frame_length, line_byte};

impl Refusal {
    // The refusal's number in document 01.
    pub fn number(self) -> u8
        ensures { result ≡ number_of self }
    {
        match self {
            Refusal::Overlong => 2,
            Refusal::Malformed(_) => 3,
            Refusal::Misplaced(_) => 4,
            Refusal::OutOfRange(_) => 5,
            Refusal::Unlinked(_) => 6,
        }
    }

    // The refusal's line, from 1; 0 where there is none.
    pub fn line(self) -> usize
        ensures { result ≡ line_of self }
    {
        match self {
            Refusal::Overlong => 0,
            Refusal::Malformed(line)
            | Refusal::Misplaced(line)
            | Refusal::OutOfRange(line)
            | Refusal::Unlinked(line) => line,
        }
    }
}

// The number of what reading came to; 0 where the text reads.
pub fn number(read: &Result<Tables, Refusal>) -> u8
    ensures { result ≡ number_read read.now }
{
    match read {
        Ok(_) => 0,
        Err(refusal) => refusal.number(),
    }
}

// Its line, from 1; 0 where there is none.
pub fn line(read: &Result<Tables, Refusal>) -> usize
    ensures { result ≡ line_read read.now }
{
    match read {
        Ok(_) => 0,
        Err(refusal) => refusal.line(),
    }
}

// The frame that is due as number i, by the header in the tables.
#[tactic(auto, unfolding(crate::specs::Frames::due))]
fn due(tables: &[u8], i: usize) -> Due
    ensures { result ≡ due (cell tables.now) i }
{
    let first_method = 1 + fields(tables);
    let first_node = first_method + methods(tables);
    if i == 0 {
        Due::Header
    } else if i < first_method {
        Due::Field
    } else if i < first_node {
        Due::Method
    } else if i < first_node + nodes(tables) {
        Due::Node
    } else {
        Due::End
    }
}

fn kind_of(due: Due) -> usize
    ensures { result ≡ kind_of due }
{
    match due {
        Due::Header => HEADER_KIND,
        Due::Field => FIELD_KIND,
        Due::Method => METHOD_KIND,
        Due::Node => NODE_KIND,
        Due::End => 0,
    }
}

fn length_of(due: Due) -> usize
    ensures { result ≡ length_of due }
{
    match due {
        Due::Header => HEADER_LENGTH,
        Due::Field => FIELD_LENGTH,
        Due::Method => METHOD_LENGTH,
        Due::Node => NODE_LENGTH,
        Due::End => 0,
    }
}

// The line is of the kind due and of its length.
#[tactic(auto, unfolding(crate::specs::Frames::placed))]
fn placed(line: &[u8], length: usize, due: Due) -> bool
    requires { length ≡ frame_length line.now }
    ensures { result ≡ placed due line.now }
{
    length == length_of(due) && line_byte(line, 0) == kind_of(due)
}

// The first bytes of a line, as frame j of the tables.
fn store(line: &[u8], count: usize, tables: &mut [u8], j: usize)
    requires { (count ≤ frame_length line.now) × ((j < layout.most_frames) × (j * layout.stride + count ≤ length tables.old)) }
    ensures { tables.new ≡ paste tables.old (j * layout.stride) (bytes line.now) count }
{
    for b in 0..count {
        tables[j * STRIDE + b] = line_byte(line, b) as u8;
    }
}

// The line is read as frame i: "in each line 3, 4, 5, 6", the lowest refusal that applies. It stands in the tables once it is of the kind and
// length due.
#[tactic(auto, using(crate::specs::Laws::Steps::four_tests), unfolding(crate::specs::Code::Steps::line_fault, crate::specs::Code::Steps::fault_by, lines::specs::Lines::well_formed))]
fn take_line(
    line: &[u8],
    due: Due,
    tables: &mut [u8],
    named: &mut [u8],
    i: usize,
    stand: Stand,
) -> Option<Fault>
    requires { (i < layout.most_frames) × ((length tables.old ≡ tables_length) × (stand.number ≤ length named.old)) }
    ensures { Taken result line.now due tables.old tables.new named.old named.new i stand.method stand.number }
{
    let bytes = frame_length(line);
    if bytes == 0 {
        return Some(Fault::Malformed);
    }
    if !placed(line, bytes, due) {
        return Some(Fault::Misplaced);
    }
    store(line, bytes, tables, i);
    if !in_range(tables, due, i) {
        return Some(Fault::OutOfRange);
    }
    if !linked(tables, named, due, i, stand) {
        return Some(Fault::Unlinked);
    }
    None
}

// Where the node after this one stands.
fn next_node(tables: &[u8], stand: Stand) -> Stand
    requires { (stand.method < layout.most_frames) × (stand.number < layout.most_frames) }
    ensures { result ≡ next_node (cell tables.now) stand }
{
    let Stand { method, number } = stand;
    if number + 1 == node_count(tables, method) {
        Stand {
            method: method + 1,
            number: 0,
        }
    } else {
        Stand {
            method,
            number: number + 1,
        }
    }
}

// Where the node after this frame stands.
fn next_stand(tables: &[u8], due: Due, stand: Stand) -> Stand
    requires { (stand.method < layout.most_frames) × (stand.number < layout.most_frames) }
    ensures { result ≡ next_stand (cell tables.now) due stand }
{
    match due {
        Due::Node => next_node(tables, stand),
        Due::Header | Due::Field | Due::Method | Due::End => stand,
    }
}

// A fault after i lines.
fn refusal_of(fault: Fault, i: usize) -> Refusal
    requires { i < layout.most_frames }
    ensures { result ≡ refusal_of fault i }
{
    match fault {
        Fault::Malformed => Refusal::Malformed(i + 1),
        Fault::Misplaced => Refusal::Misplaced(i + 1),
        Fault::OutOfRange => Refusal::OutOfRange(i + 1),
        Fault::Unlinked => Refusal::Unlinked(i + 1),
    }
}

// One text from a place on; the header says where it ends.
fn read_one(text: &[u8], start: usize) -> Result<OneText, Refusal>
    ensures { OneRead text.now (lines (drop start text.now)) result }
{
    let mut tables = [0; TABLES_LENGTH];
    let mut named = [0; MOST_NODES];
    let mut place = Place { at: start, line: 1 };
    let mut stand = Stand {
        method: 0,
        number: 0,
    };
    // Three ways out, none after a known number of turns: where the end is due, the text's end, and a fault.
    loop {
        let i = place.line - 1;
        let d = due(&tables, i);
        if d == Due::End {
            return Ok(OneText {
                tables: Tables { bytes: tables },
                after: place,
            });
        }
        if text.len() <= place.at {
            return Err(refusal_of(Fault::Misplaced, i));
        }
        let next = place.past_line(text);
        let line = &text[place.at..next.at];
        if let Some(fault) = take_line(line, d, &mut tables, &mut named, i, stand) {
            return Err(refusal_of(fault, i));
        }
        stand = next_stand(&tables, d, stand);
        if stand.number == 0 {
            // A new method starts with nothing named.
            named = [0; MOST_NODES];
        }
        place = next;
    }
}

// A line after the last due one: it is malformed, or misplaced.
fn too_many(text: &[u8], place: Place) -> Refusal
    requires { place.at < length text.now }
    ensures { result ≡ surplus (line_from text.now place.at) place.line }
{
    let next = place.past_line(text);
    if frame_length(&text[place.at..next.at]) == 0 {
        Refusal::Malformed(place.line)
    } else {
        Refusal::Misplaced(place.line)
    }
}

// A whole text: its checked tables, or where it is refused first.
pub fn read(text: &[u8]) -> Result<Tables, Refusal>
    ensures { result ≡ read_text text.now }
{
    if MOST_TEXT < text.len() {
        return Err(Refusal::Overlong);
    }
    let one = read_one(text, 0)?;
    if one.after.at < text.len() {
        return Err(too_many(text, one.after));
    }
    Ok(one.tables)
}
