// Walking back over what was accepted. Only `<` never stands in text, so a walk goes from one to the one before it; what its tag is, is
// seen from its first byte and from the byte before its `>`, which is the first behind it.
ghost use Rattle.std.specs.Prelude.{◌≡◌, List, ◌∷◌, ◌<◌};
ghost use Rattle.grammar.specs.Machine.{Open};
ghost use Rattle.openings.specs.OpenNames.{OpenAt, SomeOpen, LastMarkup, TagAt, TagBefore};

use tokens::class::byte_at;

// The last tag before a place, and where its `<` stands.
#[derive(Drop)]
pub enum Back {
    Start(usize),
    Empty(usize),
    End(usize),
}

// Where the last `<` before a place stands, and where the first `>` behind it does.
#[derive(Drop)]
struct Markup {
    less: usize,
    shut: usize,
}

fn nearer(b: u8, at: usize, shut: usize) -> usize
    ensures { (b ≡ 62 → result ≡ at) × ((b ≡ 62 → ⊥) → result ≡ shut) }
{
    if b == b'>' { at } else { shut }
}

// The walk ends at the `<` that there is: a range down to 0 would want an answer for a document without one.
fn last_markup(document: &[u8], from: usize) -> Markup
    requires { SomeOpen document.now from }
    ensures { LastMarkup document.now from result.less result.shut }
{
    let mut at = from;
    let mut shut = from;
    loop {
        at = at - 1;
        let b = document[at];
        if b == b'<' {
            return Markup {
                less: at,
                shut: shut,
            };
        }
        shut = nearer(b, at, shut);
    }
}

fn tag_before(document: &[u8], from: usize) -> Back
    requires { SomeOpen document.now from }
    ensures { (o : List Open) → OpenAt document.now from o → TagBefore document.now from o result }
{
    let last = last_markup(document, from);
    if byte_at(document, last.less + 1) == b'/' {
        return Back::End(last.less);
    }
    if byte_at(document, last.shut - 1) == b'/' {
        return Back::Empty(last.less);
    }
    Back::Start(last.less)
}

// The start tag of the innermost element that is open at `from`. `inside` counts the elements that have ended between here and there, and
// whose start tags are still to come.
pub fn innermost_before(document: &[u8], from: usize) -> usize
    requires { SomeOpen document.now from }
    ensures { (p : Open) (o : List Open) → OpenAt document.now from (p ∷ o) → (result < from) × TagAt document.now result p o }
{
    let mut at = from;
    let mut inside: usize = 0;
    loop {
        match tag_before(document, at) {
            Back::End(less) => {
                inside = inside + 1;
                at = less;
            }
            Back::Empty(less) => {
                at = less;
            }
            Back::Start(less) => {
                if inside == 0 {
                    return less;
                }
                inside = inside - 1;
                at = less;
            }
        }
    }
}
