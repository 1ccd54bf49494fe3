// The spelling lookup: for a row of a tree, the part of the dictionary or of the document that spells it.
ghost use Rattle.std.specs.Prelude.{List, ℕ, ◌≡◌, ◌<◌, length};
ghost use Rattle.dictionary.specs.Names.{GoodDictionary};
ghost use Rattle.dictionary.specs.Source.{number_of_source};
ghost use Rattle.dictionary.specs.Spelling.{IsPart, part_of_dictionary, part_of_document, PartAnswered, SpellingAnswered};

// Where a spelling's bytes stand.
#[derive(Clone, Copy, PartialEq, Eq)]
pub enum Source {
    Dictionary,
    Document,
}

// 01's number of it.
impl From<Source> for u32 {
    ghost from_gives = { λ source number. number ≡ number_of_source source };

    fn from(source: Source) -> u32 {
        match source {
            Source::Dictionary => 0,
            Source::Document => 1,
        }
    }
}

// `length` bytes from `start` of one of the two.
#[derive(Clone, Copy, PartialEq, Eq)]
pub struct Part {
    pub source: Source,
    pub start: u32,
    pub length: u32,
}

// An empty part of the document.
const EMPTY: Part = Part {
    source: Source::Document,
    start: 0,
    length: 0,
};

// The name at a place, without its byte 10.
fn name_part(dictionary: &[u8], place: usize) -> Part
    requires { (names : List (List ℕ)) × GoodDictionary dictionary.now names × (place < length names) }
    ensures { (names : List (List ℕ)) → GoodDictionary dictionary.now names → IsPart (number_of_source result.source) result.start result.length (part_of_dictionary names place) }
{
    let mut start = 0;
    for _ in 0..place {
        start = super::name_end(dictionary, start) + 1;
    }
    let end = super::name_end(dictionary, start);
    Part {
        source: Source::Dictionary,
        start: start as u32,
        length: (end - start) as u32,
    }
}

fn document_part(document: &[u8], start: u32, length: u32) -> Part
    ensures { IsPart (number_of_source result.source) result.start result.length (part_of_document document.now start length) }
{
    if document.len() < start as usize + length as usize {
        return EMPTY;
    }
    Part {
        source: Source::Document,
        start,
        length,
    }
}

// Where the row's spelling stands. Half the label is its number, whether the row is an element's or a text's. An empty part of the document
// is the one at its start.
pub fn part_of(
    dictionary: &[u8],
    document: &[u8],
    label: &[u32],
    start: &[u32],
    length: &[u32],
    row: usize,
) -> Part
    ensures { PartAnswered dictionary.now document.now label.now start.now length.now row (number_of_source result.source) result.start result.length }
{
    if label.len() <= row {
        return EMPTY;
    }
    if start.len() <= row {
        return EMPTY;
    }
    if length.len() <= row {
        return EMPTY;
    }
    let place = label[row] as usize / 2;
    let names = super::check(dictionary).unwrap_or(0);
    if place < names {
        return name_part(dictionary, place);
    }
    document_part(document, start[row], length[row])
}

// The row's spelling.
pub fn spelling<'a>(
    dictionary: &'a [u8],
    document: &'a [u8],
    label: &[u32],
    start: &[u32],
    length: &[u32],
    row: usize,
) -> &'a [u8]
    ensures { SpellingAnswered dictionary.entry.ref_ptr document.entry.ref_ptr dictionary.now document.now label.now start.now length.now row result.ref_ptr result.now }
{
    let found = part_of(dictionary, document, label, start, length, row);
    let at = found.start as usize;
    let to = at + found.length as usize;
    match found.source {
        Source::Dictionary => &dictionary[at..to],
        Source::Document => &document[at..to],
    }
}
