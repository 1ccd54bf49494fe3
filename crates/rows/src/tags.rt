// One tag of a document whose rows are noted: the innermost open element's name and its length are known.

ghost use Rattle.std.specs.Prelude.{◌+◌, ◌≤◌, ◌<◌};
ghost use Rattle.std.proofs.Math.ListN;
ghost use Rattle.tokens.specs.Tokens.{Span, name_at};
ghost use Rattle.judge.specs.Tags.{Started, Ended, Tagged};

use judge::tags::{Kind, Tag, shut, stands};
use tokens::class::{Classes, FIRST, byte_at};
use tokens::{long_name_end, white_end};
use words::stands_again;

// The tag whose `<` stands before `at`. Most end behind the name at once.
fn start_tag(document: &[u8], classes: &Classes, at: usize) -> Result<Tag, usize>
    requires { at ≤ ListN.length document.now }
    ensures { Started document.now at result }
{
    if classes.class_of(byte_at(document, at)) < FIRST {
        return Err(at);
    }
    let end = long_name_end(document, classes, at + 1);
    if byte_at(document, end) == b'>' {
        return Ok(Tag::Opens(end, end + 1));
    }
    shut(document, classes, end)
}

// The end tag whose `</` stands before `at`. Where the name does not stand again, the judge says how far it does.
fn end_tag(
    document: &[u8],
    classes: &Classes,
    name: usize,
    length: usize,
    at: usize,
) -> Result<Tag, usize>
    requires { (at ≤ ListN.length document.now) × (name < 65536) × Span (name_at document.now) document.now name (name + length) }
    ensures { Ended document.now name at result }
{
    if !stands_again(document, name, at, length) {
        return judge::tags::end_tag(document, classes, name, at);
    }
    let end = at + length;
    if byte_at(document, end) == b'>' {
        return Ok(Tag::Closes(end + 1));
    }
    let shut = white_end(document, classes, end);
    if byte_at(document, shut) == b'>' {
        return Ok(Tag::Closes(shut + 1));
    }
    Err(shut)
}

// The tag whose `<` stands at `at`, in `depth` open elements and behind `rows` rows.
pub fn next_tag(
    document: &[u8],
    classes: &Classes,
    name: usize,
    length: usize,
    depth: usize,
    rows: usize,
    at: usize,
) -> Result<Tag, usize>
    requires { (at < ListN.length document.now) × (name < 65536) × (0 < depth → Span (name_at document.now) document.now name (name + length)) }
    ensures { Tagged document.now name depth rows at result }
{
    match stands(document, depth, rows, at) {
        Kind::Nothing => Err(at),
        Kind::Start => start_tag(document, classes, at + 1),
        Kind::End => end_tag(document, classes, name, length, at + 2),
    }
}
