// The token loops: each goes on while the bytes stay in the token, and answers where it ends.
#![tactic(auto)]

ghost use Rattle.std.specs.Prelude.{◌≡◌, true, ℕ, ◌+◌, ◌-◌, ◌≤◌, ◌<◌, min, length, get_or, Bool, ◌&&◌, fold, drop, take};
ghost use Rattle.grammar.specs.Classes.{white};
ghost use Rattle.grammar.specs.Machine.{brackets};
ghost use Rattle.tokens.specs.Tokens.{Passed, Span, SpanTo, bytes, digits, stop_at, white_at, name_at, plain, plain_at, is_text_at, same_at};

pub mod class;

use class::{Classes, GREATER, IN_NAME, NONE, WHITE, byte_at};

// The first place before `limit` that is not white, or `limit`.
fn white_to(document: &[u8], classes: &Classes, from: usize, limit: usize) -> usize
    requires { (from ≤ limit) × (limit ≤ length document.now) }
    ensures { SpanTo (white_at document.now) document.now from limit result }
{
    for i in from..limit {
        if classes.class_of(document[i]) != WHITE {
            return i;
        }
    }
    limit
}

pub fn white_end(document: &[u8], classes: &Classes, from: usize) -> usize
    requires { from ≤ length document.now }
    ensures { Span (white_at document.now) document.now from result }
{
    white_to(document, classes, from, document.len())
}

// Bytes that are passed over many at a time. They are told by comparisons of the byte itself, since the compiler makes vectors of those and
// not of a table.
trait Many {
    ghost among: { ℕ → Bool };

    fn has(b: u8) -> bool
        ensures { result ≡ among b };
}

struct White;

impl Many for White {
    ghost among = { white };

    fn has(b: u8) -> bool {
        (b == b'\t') | (b == b'\n') | (b == b' ')
    }
}

// The bytes of class 2 or more.
struct Plain;

impl Many for Plain {
    ghost among = { plain };

    fn has(b: u8) -> bool {
        (b == b'\t')
            | (b == b'\n')
            | ((31 < b) & (b < 128) & (b != b'&') & (b != b'<') & (b != b'>'))
    }
}

// Are the 16 bytes from i on all among them? No branch depends on a byte, so that the compiler makes one comparison of vectors of it.
fn whole<M: Many>(document: &[u8], i: usize) -> bool
    requires { i + 16 ≤ length document.now }
    ensures { result ≡ fold (λ all b. all && M.among b) true (take 16 (drop i document.now)) }
{
    document[i..i + 16]
        .iter()
        .fold(true, |all, b| all & M::has(*b))
}

// Those bytes, sixteen at a time. Over `as_chunks` the reader was 5 % slower in the mean of its documents.
fn blocks_end<M: Many>(document: &[u8], from: usize) -> usize
    requires { from ≤ length document.now }
    ensures { Passed (λ k. M.among (get_or document.now k 0)) document.now from result }
{
    let mut i = from;
    while i + 16 <= document.len() {
        if !whole::<M>(document, i) {
            return i;
        }
        i += 16;
    }
    i
}

// White space between tags, which may be long; mostly it is short.
pub fn long_white_end(document: &[u8], classes: &Classes, from: usize) -> usize
    requires { from ≤ length document.now }
    ensures { Span (white_at document.now) document.now from result }
{
    let near = (from + 16).min(document.len());
    let end = white_to(document, classes, from, near);
    if end < near {
        return end;
    }
    white_end(document, classes, blocks_end::<White>(document, end))
}

pub fn name_end(document: &[u8], classes: &Classes, from: usize) -> usize
    requires { from ≤ length document.now }
    ensures { Span (name_at document.now) document.now from result }
{
    for i in from..document.len() {
        if classes.class_of(document[i]) < IN_NAME {
            return i;
        }
    }
    document.len()
}

// The same, four bytes a turn, each with a branch of its own: where names come back, the processor guesses where they end. It walks by
// four, and the bytes that are left are the other function's.
pub fn long_name_end(document: &[u8], classes: &Classes, from: usize) -> usize
    requires { from ≤ length document.now }
    ensures { Span (name_at document.now) document.now from result }
{
    let mut i = from;
    while i + 4 <= document.len() {
        if classes.class_of(document[i]) < IN_NAME {
            return i;
        }
        if classes.class_of(document[i + 1]) < IN_NAME {
            return i + 1;
        }
        if classes.class_of(document[i + 2]) < IN_NAME {
            return i + 2;
        }
        if classes.class_of(document[i + 3]) < IN_NAME {
            return i + 3;
        }
        i += 4;
    }
    name_end(document, classes, i)
}

// Do the bytes from the run's start up to k end with `]]`?
#[tactic(auto, using(crate::proofs::Spans::brackets_few, crate::proofs::Spans::brackets_two))]
fn bracketed(document: &[u8], start: usize, k: usize) -> bool
    requires { (start ≤ k) × (k ≤ length document.now) }
    ensures { result ≡ brackets (bytes document.now start (k - start)) }
{
    if k - start < 2 {
        return false;
    }
    if document[k - 2] == b']' {
        return document[k - 1] == b']';
    }
    false
}

fn text_at(document: &[u8], classes: &Classes, start: usize, k: usize) -> bool
    requires { (start ≤ k) × (k < length document.now) }
    ensures { result ≡ is_text_at document.now start k }
{
    let c = classes.class_of(document[k]);
    if GREATER < c {
        return true;
    }
    if c == NONE {
        return false;
    }
    !bracketed(document, start, k)
}

// Which of the 4 bytes from i on stop plain text: a binary digit for each, the first the lowest.
fn four_stops(document: &[u8], classes: &Classes, i: usize) -> u32
    requires { i + 4 ≤ length document.now }
    ensures { (result ≡ digits (stop_at document.now) i 4 0) × (result < 16) }
{
    let a = classes.stops(document[i]);
    let b = classes.stops(document[i + 1]);
    let c = classes.stops(document[i + 2]);
    let d = classes.stops(document[i + 3]);
    a + 2 * (b + 2 * (c + 2 * d))
}

// How many of the 8 bytes from i on are plain text, up to the first that is not.
fn plain_count(document: &[u8], classes: &Classes, i: usize) -> usize
    requires { i + 8 ≤ length document.now }
    ensures { (result ≤ 8) × ((k : ℕ) → k < result → plain_at document.now (i + k) ≡ true) }
{
    let near = four_stops(document, classes, i);
    let far = four_stops(document, classes, i + 4);
    let found = near + 16 * far + 256;
    u32::trailing_zeros(found) as usize
}

// Plain text, eight bytes at a time; what is longer than 64 bytes is likely to be much longer. It walks by eight, up to the last eight or to
// the byte that stops.
fn plain_end(document: &[u8], classes: &Classes, from: usize) -> usize
    requires { from ≤ length document.now }
    ensures { Passed (plain_at document.now) document.now from result }
{
    let near = (from + 64).min(document.len());
    let mut i = from;
    while i + 8 <= near {
        let count = plain_count(document, classes, i);
        if count < 8 {
            return i + count;
        }
        i += 8;
    }
    blocks_end::<Plain>(document, i)
}

// The run that starts at `start` is text up to `from`: the first place before `limit` where it is not, or `limit`.
fn text_to(document: &[u8], classes: &Classes, start: usize, from: usize, limit: usize) -> usize
    requires { Passed (is_text_at document.now start) document.now start from × (from ≤ limit) × (limit ≤ length document.now) }
    ensures { SpanTo (is_text_at document.now start) document.now start limit result }
{
    for i in from..limit {
        if !text_at(document, classes, start, i) {
            return i;
        }
    }
    limit
}

// The end of the run that starts at `start` and is text up to `from`.
pub fn text_end(document: &[u8], classes: &Classes, start: usize, from: usize) -> usize
    requires { Passed (is_text_at document.now start) document.now start from }
    ensures { Span (is_text_at document.now start) document.now start result }
{
    text_to(document, classes, start, from, document.len())
}

// The same where a text is likely to follow. What stops plain text is mostly the `<` of a tag; behind another byte that does, one more is
// likely: so a few go one by one.
pub fn long_text_end(document: &[u8], classes: &Classes, start: usize, from: usize) -> usize
    requires { Passed (is_text_at document.now start) document.now start from }
    ensures { Span (is_text_at document.now start) document.now start result }
{
    let mut i = from;
    while i < document.len() {
        let plain = plain_end(document, classes, i);
        if byte_at(document, plain) == b'<' {
            return plain;
        }
        let near = (plain + 16).min(document.len());
        let end = text_to(document, classes, start, plain, near);
        if end < near {
            return end;
        }
        i = end;
    }
    i
}

// How far the name that starts at `name` stands again at `from`.
pub fn same_end(document: &[u8], classes: &Classes, name: usize, from: usize) -> usize
    requires { (from ≤ length document.now) × (name < 65536) }
    ensures { Span (same_at document.now name from) document.now from result }
{
    for i in from..document.len() {
        let expected = byte_at(document, name + (i - from));
        if classes.class_of(expected) < IN_NAME || document[i] != expected {
            return i;
        }
    }
    document.len()
}
