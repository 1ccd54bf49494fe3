// The tree of a line: its two lists, or a document.
ghost use Rattle.std.specs.Prelude.{◌≤◌, length, IfSome};

use crate::listings;
use lines::lists::part;
use lines::read_lists;
use makings::printing::unreadable;
use std::{array, io};
use tree::Tree;

// So many numbers fit the lists of a tree.
const NUMBERS: usize = 4200;

// A dictionary of names with spaces between them has at most so many bytes.
const DICTIONARY: usize = 1024;

// The most rows that are read.
const ROWS: usize = 2048;

// Writes the names, which have spaces between them, as a dictionary. How many bytes it has, or none where they have no room.
fn write_names(names: &[u8], dictionary: &mut [u8]) -> Option<usize>
    ensures { IfSome result (λ end. end ≤ length dictionary.new) }
{
    if names.is_empty() {
        return Some(0);
    }
    if dictionary.len() <= names.len() {
        return None;
    }
    for (place, byte) in dictionary.iter_mut().zip(names) {
        *place = if *byte == b' ' { b'\n' } else { *byte };
    }
    dictionary[names.len()] = b'\n';
    Some(names.len() + 1)
}

// A problem on the tree of a document.
pub fn document(rt: &impl Print, problem: &[u8], names: &[u8], bytes: &[u8]) -> io::Result<()> {
    let mut dictionary = [0; DICTIONARY];
    // A dictionary that is too long is refused as one without names is.
    let dictionary = match write_names(names, &mut dictionary) {
        Some(end) => &dictionary[..end],
        None => b"",
    };
    let mut label = [0u32; ROWS];
    let mut size = [0u32; ROWS];
    let mut start = [0u32; ROWS];
    let mut length = [0u32; ROWS];
    match document::read(
        dictionary,
        bytes,
        &mut label,
        &mut size,
        &mut start,
        &mut length,
    ) {
        Err(refusal) => print!(rt; " refused {} {}", u32::from(refusal), refusal.place()),
        Ok(rows) => {
            let rows = ROWS.min(rows as usize);
            let tree = Tree {
                label: &label[..rows],
                size: &size[..rows],
            };
            listings::list(rt, tree, problem)
        }
    }
}

// A problem on a tree's two lists.
pub fn rows(rt: &impl Print, problem: &[u8], tree: &[u8]) -> io::Result<()> {
    let mut numbers = [0; NUMBERS];
    let mut ends = [0; 2];
    if read_lists(tree, &mut numbers, &mut ends) != Some(2) {
        return unreadable(rt);
    }
    let [label, size]: [&[u32]; 2] = array::from_fn(|list| part(&numbers, &ends, list));
    listings::list(rt, Tree { label, size }, problem)
}

// The instance of a record over a tree's two lists.
pub fn instance(rt: &impl Print, lists: &[u8], tree: &[u8]) -> io::Result<()> {
    let mut numbers = [0; NUMBERS];
    let mut ends = [0; 2];
    if read_lists(tree, &mut numbers, &mut ends) != Some(2) {
        return unreadable(rt);
    }
    let [label, size]: [&[u32]; 2] = array::from_fn(|list| part(&numbers, &ends, list));
    makings::instance(rt, &Tree { label, size }, lists)
}
