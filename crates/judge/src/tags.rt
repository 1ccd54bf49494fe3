// One tag: where it ends and what it does, or where no document goes on.
ghost use Rattle.std.specs.Prelude.{◌≤◌, ◌<◌, length};
ghost use Rattle.judge.specs.Tags.{Shut, Started, Ended, Tagged, KindOf};

use tokens::class::{Classes, FIRST, WHITE, byte_at};
use tokens::{name_end, same_end, white_end};

// Each holds the place behind the tag; a start tag also where its name ends. Where there is no tag, the place of code 3 stands in its stead.
#[derive(Clone, Copy)]
pub enum Tag {
    Opens(usize, usize),
    Empty(usize, usize),
    Closes(usize),
}

// What stands behind a start tag's name, which ends at `end`.
pub fn shut(document: &[u8], classes: &Classes, end: usize) -> Result<Tag, usize>
    requires { end ≤ length document.now }
    ensures { Shut document.now end result }
{
    let shut = white_end(document, classes, end);
    let b = byte_at(document, shut);
    if b == b'>' {
        return Ok(Tag::Opens(end, shut + 1));
    }
    if b == b'/' {
        if byte_at(document, shut + 1) == b'>' {
            return Ok(Tag::Empty(end, shut + 2));
        }
        return Err(shut + 1);
    }
    Err(shut)
}

// The tag whose `<` stands before `at`. The rows read tags likewise, but several bytes at a time and with a name's length known: what is the
// same in both is shared (`stands`, `shut`).
fn start_tag(document: &[u8], classes: &Classes, at: usize) -> Result<Tag, usize>
    requires { at ≤ length document.now }
    ensures { Started document.now at result }
{
    if classes.class_of(byte_at(document, at)) < FIRST {
        return Err(at);
    }
    shut(document, classes, name_end(document, classes, at + 1))
}

// The end tag whose `</` stands before `at`; the innermost open element's name starts at `name`.
pub fn end_tag(document: &[u8], classes: &Classes, name: usize, at: usize) -> Result<Tag, usize>
    requires { (at ≤ length document.now) × (name < 65536) }
    ensures { Ended document.now name at result }
{
    let end = same_end(document, classes, name, at);
    let rest = name + (end - at);
    if WHITE < classes.class_of(byte_at(document, rest)) {
        return Err(end);
    }
    let shut = white_end(document, classes, end);
    if byte_at(document, shut) == b'>' {
        return Ok(Tag::Closes(shut + 1));
    }
    Err(shut)
}

// What may stand at a `<`: nothing, behind the root; a start tag; or an end tag.
#[derive(Clone, Copy)]
pub enum Kind {
    Nothing,
    Start,
    End,
}

// Which of them stands at `at`, in `depth` open elements and behind `rows` rows.
pub fn stands(document: &[u8], depth: usize, rows: usize, at: usize) -> Kind
    requires { at < length document.now }
    ensures { KindOf document.now depth rows at result }
{
    if depth == 0 {
        if 0 < rows {
            return Kind::Nothing;
        }
        return Kind::Start;
    }
    if byte_at(document, at + 1) == b'/' {
        return Kind::End;
    }
    Kind::Start
}

// The tag whose `<` stands at `at`, in `depth` open elements and behind `rows` rows.
pub fn next_tag(
    document: &[u8],
    classes: &Classes,
    name: usize,
    depth: usize,
    rows: usize,
    at: usize,
) -> Result<Tag, usize>
    requires { (at < length document.now) × (name < 65536) }
    ensures { Tagged document.now name depth rows at result }
{
    match stands(document, depth, rows, at) {
        Kind::Nothing => Err(at),
        Kind::Start => start_tag(document, classes, at + 1),
        Kind::End => end_tag(document, classes, name, at + 2),
    }
}
