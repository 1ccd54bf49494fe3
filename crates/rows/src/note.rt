// One pass over a document, which notes the start, the length and the size of each row in lists of its own.
ghost use Rattle.std.specs.Prelude.{List, ◌≤◌};
ghost use lib.ListN.{length};
ghost use Rattle.grammar.specs.Grammar.{Bytes, Content};
ghost use Rattle.grammar.specs.Machine.{Open};
ghost use Rattle.judge.specs.Tags.{RunTo};
ghost use Rattle.labels.specs.Lists.{Long};
ghost use Rattle.rows.specs.Notes.{Notes};
ghost use Rattle.rows.specs.Turns.{MayTag, TagDone, RunDone, MayTurn, TurnDone};

use super::tags::next_tag;
use judge::limits::{DEEPEST, MOST_ROWS};
use judge::tags::Tag;
use judge::{Run, is_whole};
use labels::note::RowLists;
use tokens::class::{Classes, byte_at};
use tokens::{long_text_end, long_white_end};

// Why no rows are noted: the place of code 3; or a document, if it is one, that is too deep or has too many rows.
#[derive(Clone, Copy, PartialEq, Eq)]
pub enum Unread {
    Outside(usize),
    Beyond,
}

// The run that starts at `start`. What stands between tags is mostly white space.
fn run(document: &[u8], classes: &Classes, depth: usize, start: usize) -> Run
    requires { start ≤ length document.now }
    ensures { RunTo document.now depth start result.end result.rows }
{
    let white = long_white_end(document, classes, start);
    if byte_at(document, white) == b'<' {
        return Run {
            end: white,
            rows: 0,
        };
    }
    if depth == 0 {
        return Run {
            end: white,
            rows: 0,
        };
    }
    let end = long_text_end(document, classes, start, white);
    if white < end {
        return Run { end, rows: 1 };
    }
    Run { end, rows: 0 }
}

// What a turn of the pass comes to: a whole document of so many rows; or an element at this row, and then where its tag ends; or an end tag
// behind so many rows, and where it ends.
#[derive(Clone, Copy)]
enum Turn {
    Ends(usize),
    Opens(usize, usize),
    Empty(usize, usize),
    Closes(usize, usize),
}

// The tag whose `<` stands at `at`, behind `row` rows. `top` is the row of the innermost open element.
fn read_tag(
    document: &[u8],
    classes: &Classes,
    notes: &mut RowLists,
    top: usize,
    depth: usize,
    row: usize,
    at: usize,
) -> Result<Turn, Unread>
    requires { (o : List Open) × (f : Content) × (t : Bytes) × MayTag document.now notes.old.starts notes.old.lengths top depth row at o f t }
    ensures { (o : List Open) (f : Content) (t : Bytes) → MayTag document.now notes.old.starts notes.old.lengths top depth row at o f t → TagDone document.now notes.old.starts notes.old.lengths notes.old.sizes depth row at o f t notes.new.starts notes.new.lengths notes.new.sizes result }
{
    let name = usize::from(notes.starts[top]);
    let length = usize::from(notes.lengths[top]);
    let tag = next_tag(document, classes, name, length, depth, row, at).map_err(Unread::Outside)?;
    match tag {
        Tag::Opens(end, next) => {
            if DEEPEST <= depth {
                return Err(Unread::Beyond);
            }
            notes.put(row, at + 1, end - (at + 1));
            Ok(Turn::Opens(row, next))
        }
        Tag::Empty(end, next) => {
            if DEEPEST <= depth {
                return Err(Unread::Beyond);
            }
            notes.put(row, at + 1, end - (at + 1));
            Ok(Turn::Empty(row, next))
        }
        Tag::Closes(next) => Ok(Turn::Closes(row, next)),
    }
}

// What a run comes to: the end of a document of so many rows; or a tag behind so many rows, at this place.
#[derive(Clone, Copy)]
enum Ran {
    Last(usize),
    Tag(usize, usize),
}

// The run that starts at `i`, behind `row` rows. Most are empty, since a tag stands there, and nothing is put. What is put at `row` is a row
// only where it is counted.
fn read_run(
    document: &[u8],
    classes: &Classes,
    notes: &mut RowLists,
    depth: usize,
    row: usize,
    i: usize,
) -> Result<Ran, Unread>
    requires { (lib.ListN.length document.now ≤ 32768) × (i ≤ lib.ListN.length document.now) × (depth ≤ 64) }
    ensures { RunDone document.now notes.old.starts notes.old.lengths notes.old.sizes depth row i notes.new.starts notes.new.lengths notes.new.sizes result }
{
    if MOST_ROWS < row {
        return Err(Unread::Beyond);
    }
    if byte_at(document, i) == b'<' {
        return Ok(Ran::Tag(row, i));
    }
    let text = run(document, classes, depth, i);
    let at = text.end;
    let leaves = text.rows;
    notes.put(row, i, at - i);
    let row = row + leaves;
    if byte_at(document, at) != b'<' {
        if !is_whole(document.len(), at, depth, row) {
            return Err(Unread::Outside(at));
        }
        return Ok(Ran::Last(row));
    }
    let deep = DEEPEST < depth + leaves;
    if deep {
        return Err(Unread::Beyond);
    }
    Ok(Ran::Tag(row, at))
}

// One turn: the run that starts at `i`, and the tag behind it.
fn read_turn(
    document: &[u8],
    classes: &Classes,
    notes: &mut RowLists,
    top: usize,
    depth: usize,
    row: usize,
    i: usize,
) -> Result<Turn, Unread>
    requires { (o : List Open) × (f : Content) × MayTurn document.now notes.old.starts notes.old.lengths notes.old.sizes top depth row i o f }
    ensures { (o : List Open) (f : Content) → MayTurn document.now notes.old.starts notes.old.lengths notes.old.sizes top depth row i o f → TurnDone document.now notes.old.starts notes.old.lengths notes.old.sizes depth row i o f notes.new.starts notes.new.lengths notes.new.sizes result }
{
    let run = read_run(document, classes, notes, depth, row, i)?;
    match run {
        Ran::Last(rows) => Ok(Turn::Ends(rows)),
        Ran::Tag(behind, at) => read_tag(document, classes, notes, top, depth, behind, at),
    }
}

// The pass. `around` has the rows of the elements around the innermost open one, `top`.
fn pass(document: &[u8], classes: &Classes, notes: &mut RowLists) -> Result<usize, Unread>
    requires { (lib.ListN.length document.now ≤ 32768) × Long notes.old.starts notes.old.lengths notes.old.sizes }
    ensures { Notes document.now notes.new.starts notes.new.lengths notes.new.sizes result }
{
    let mut around = [0u16; 64];
    let mut top: usize = 0;
    let mut depth: usize = 0;
    let mut row: usize = 0;
    let mut i: usize = 0;
    loop {
        let turn = read_turn(document, classes, notes, top, depth, row, i)?;
        match turn {
            Turn::Ends(rows) => return Ok(rows),
            Turn::Opens(element, next) => {
                around[depth] = top as u16;
                top = element;
                depth = depth + 1;
                row = element + 1;
                i = next;
            }
            Turn::Empty(element, next) => {
                row = element + 1;
                i = next;
            }
            Turn::Closes(behind, next) => {
                notes.close(top, behind);
                depth = depth - 1;
                top = usize::from(around[depth]);
                row = behind;
                i = next;
            }
        }
    }
}

// Three rows more than 2,048 have room, since a turn may put two before they are counted.
pub fn note(document: &[u8], notes: &mut RowLists) -> Result<usize, Unread>
    requires { (lib.ListN.length document.now ≤ 32768) × Long notes.old.starts notes.old.lengths notes.old.sizes }
    ensures { Notes document.now notes.new.starts notes.new.lengths notes.new.sizes result }
{
    let classes = Classes::new();
    pass(document, &classes, notes)
}
