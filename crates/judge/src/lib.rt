// Judging a document, in one pass and with nothing written.
#![tactic(auto)]

ghost use Rattle.std.specs.Prelude.{◌≡◌, ◌+◌, ◌≤◌, ◌<◌, max, length};
ghost use Rattle.meaning.specs.Calls.{Says};
ghost use Rattle.judge.specs.Answer.{code_of, place_of, rows_of};
ghost use Rattle.judge.specs.Tags.{RunTo, Done, Last};
ghost use Rattle.judge.specs.Verdict.{Verdict};

pub mod limits;
pub mod refusal;
pub mod tags;

use limits::{DEEPEST, MOST_BYTES, MOST_ROWS};
use openings::names::OpenNames;
use refusal::{Refusal, outside};
use tags::{Tag, next_tag};
use tokens::class::{Classes, byte_at};
use tokens::{text_end, white_end};

// Where a run ends, and how many rows it makes: none if it is white space only, else one.
#[derive(Clone, Copy)]
pub struct Run {
    pub end: usize,
    pub rows: usize,
}

// Byte by byte: the judge is asked only of documents beyond the limits, and what is called once is put in line.
pub fn run_end(document: &[u8], classes: &Classes, depth: usize, start: usize) -> Run
    requires { start ≤ length document.now }
    ensures { RunTo document.now depth start result.end result.rows }
{
    let white = white_end(document, classes, start);
    if depth == 0 {
        return Run {
            end: white,
            rows: 0,
        };
    }
    let end = text_end(document, classes, start, white);
    if white < end {
        return Run { end, rows: 1 };
    }
    Run { end, rows: 0 }
}

// How many rows there are so far, and how deep the deepest is.
#[derive(Clone, Copy)]
struct Seen {
    rows: usize,
    deep: usize,
}

// So many rows more, of this depth.
fn more(seen: Seen, rows: usize, depth: usize) -> Seen
    requires { (seen.rows ≤ 65537) × (rows ≤ 1) }
    ensures { (result.rows ≡ seen.rows + rows) × (result.deep ≡ max seen.deep depth) }
{
    Seen {
        rows: seen.rows + rows,
        deep: seen.deep.max(depth),
    }
}

// Is that a whole document, where no tag follows and the last run ends at `at`?
pub fn is_whole(length: usize, at: usize, depth: usize, rows: usize) -> bool
    ensures { Says result ((length ≤ at) × (depth ≡ 0) × (0 < rows)) }
{
    length <= at && depth == 0 && 0 < rows
}

// A whole document's answer.
fn within(rows: usize, deep: usize) -> Result<u32, Refusal>
    ensures { Done rows deep (code_of result) (place_of result) (rows_of result) }
{
    if DEEPEST < deep {
        return Err(Refusal::TooDeep);
    }
    if MOST_ROWS < rows {
        return Err(Refusal::TooMany);
    }
    Ok(rows as u32)
}

// The answer where no tag follows: the last run ends at `at`.
fn last(length: usize, at: usize, depth: usize, rows: usize, deep: usize) -> Result<u32, Refusal>
    requires { at ≤ 32768 }
    ensures { Last length at depth rows deep (code_of result) (place_of result) (rows_of result) }
{
    if !is_whole(length, at, depth, rows) {
        return Err(outside(at));
    }
    within(rows, deep)
}

// The pass. `names` has names of open elements, that of the innermost among them.
fn pass(document: &[u8], classes: &Classes) -> Result<u32, Refusal>
    requires { length document.now ≤ 32768 }
    ensures { Verdict document.now (code_of result) (place_of result) (rows_of result) }
{
    let mut names = OpenNames::new();
    let mut depth: usize = 0;
    let mut seen = Seen { rows: 0, deep: 0 };
    let mut i: usize = 0;
    loop {
        let text = run_end(document, classes, depth, i);
        let at = text.end;
        seen = more(seen, text.rows, depth + text.rows);
        if byte_at(document, at) != b'<' {
            return last(document.len(), at, depth, seen.rows, seen.deep);
        }
        let name = names.innermost();
        let tag = next_tag(document, classes, name, depth, seen.rows, at).map_err(outside)?;
        match tag {
            Tag::Opens(_, next) => {
                names.open(depth, at + 1);
                depth = depth + 1;
                seen = more(seen, 1, depth);
                i = next;
            }
            Tag::Empty(_, next) => {
                seen = more(seen, 1, depth + 1);
                i = next;
            }
            Tag::Closes(next) => {
                depth = depth - 1;
                names.close(document, depth);
                i = next;
            }
        }
    }
}

// The rows of a document within the limits, or the first rule that is broken.
pub fn judge(document: &[u8]) -> Result<u32, Refusal>
    ensures { Verdict document.now (code_of result) (place_of result) (rows_of result) }
{
    if MOST_BYTES < document.len() {
        return Err(Refusal::TooLong);
    }
    let classes = Classes::new();
    pass(document, &classes)
}
