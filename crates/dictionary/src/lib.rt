// The dictionary: names, each ended by byte 10; labels; and the spelling lookup.
#![tactic(auto)]

ghost use Rattle.std.specs.Prelude.{◌≡◌, ◌+◌, ◌≤◌, length, drop};
ghost use Rattle.std.specs.Option.{is_some, unwrap_or};
ghost use Rattle.dictionary.specs.Names.{DictionaryChecked};
ghost use Rattle.dictionary.specs.Scan.{upto};
ghost use Rattle.dictionary.specs.Index.{Fresh, NamesLearnt};

pub mod index;
pub mod spelling;

const MOST_BYTES: usize = 16384;

const MOST_NAMES: usize = 1024;

// The end of the name that starts at `start`: its byte 10, or the end of the bytes.
fn name_end(dictionary: &[u8], start: usize) -> usize
    requires { start ≤ length dictionary.now }
    ensures { (result ≡ start + upto (drop start dictionary.now)) × (result ≤ length dictionary.now) }
{
    for end in start..dictionary.len() {
        if dictionary[end] == b'\n' {
            return end;
        }
    }
    dictionary.len()
}

// Checks the dictionary, and leaves the names of a good one in the index: how many there are, or nothing for a bad one. Every name is numbered as it is come to: it is
// different from those before exactly where its number is new.
pub fn learn_names(dictionary: &[u8], index: &mut [u16]) -> Option<usize>
    requires { Fresh index.old }
    ensures { NamesLearnt dictionary.now (is_some result) (unwrap_or result 0) index.old index.new }
{
    if MOST_BYTES < dictionary.len() {
        return None;
    }
    let mut start = 0;
    let mut names = 0;
    while start < dictionary.len() {
        let end = name_end(dictionary, start);
        if end == dictionary.len() {
            return None;
        }
        if end <= start {
            return None;
        }
        if MOST_NAMES <= names {
            return None;
        }
        let number = index::number_of(dictionary, dictionary, 0, index, names, start, end);
        if number < names {
            return None;
        }
        start = end + 1;
        names += 1;
    }
    Some(names)
}

// The check of a dictionary: K, the number of names of a good one. Code 1 is for one that is not good.
pub fn check(dictionary: &[u8]) -> Option<usize>
    ensures { DictionaryChecked dictionary.now (is_some result) (unwrap_or result 0) }
{
    let mut index = [0u16; 5120];
    learn_names(dictionary, &mut index)
}
