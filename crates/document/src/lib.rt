// The document reader: notes the rows in lists of its own, so that a refusal writes nothing, and then fills the four lists.
#![tactic(auto)]

ghost use Rattle.std.specs.Prelude.{◌≡◌, List, ℕ, ◌≤◌, ◌<◌};
ghost use Rattle.meaning.specs.Calls.{Says};
ghost use Rattle.judge.specs.Answer.{code_of, place_of, rows_of};
ghost use Rattle.judge.specs.Verdict.{Verdict};
ghost use Rattle.document.specs.Learnt.{MayRead};
ghost use Rattle.document.specs.Reading.{Read, ReaderAnswer, DocumentChecked};

use judge::judge;
use judge::limits::MOST_BYTES;
use judge::refusal::{Refusal, outside};
use labels::fill::{copy_rows, label_rows};
use labels::note::RowLists;
use rows::note::{Unread, note};

// Do so many rows fit all four lists?
fn fits(rows: usize, label: usize, size: usize, start: usize, length: usize) -> bool
    ensures { Says result ((rows ≤ label) × (rows ≤ size) × (rows ≤ start) × (rows ≤ length)) }
{
    rows <= label && rows <= size && rows <= start && rows <= length
}

// What is left of `read` once the dictionary's names are learnt and the document is known to be short enough.
fn read_rows(
    dictionary: &[u8],
    document: &[u8],
    names: usize,
    index: &mut [u16],
    label: &mut [u32],
    size: &mut [u32],
    start: &mut [u32],
    length: &mut [u32],
) -> Result<u32, Refusal>
    requires { (clear : List ℕ) × MayRead dictionary.now document.now names clear index.old }
    ensures { Read dictionary.now document.now label.old size.old start.old length.old label.new size.new start.new length.new (code_of result) (place_of result) (rows_of result) }
{
    let mut notes = RowLists::new();
    let rows = match note(document, &mut notes) {
        Ok(rows) => rows,
        Err(Unread::Outside(place)) => return Err(outside(place)),
        Err(Unread::Beyond) => return judge(document),
    };
    if !fits(rows, label.len(), size.len(), start.len(), length.len()) {
        return Err(Refusal::NoRoom);
    }
    copy_rows(&notes, start, length, size, rows);
    label_rows(dictionary, document, names, index, label, &notes, rows);
    Ok(rows as u32)
}

pub fn read(
    dictionary: &[u8],
    document: &[u8],
    label: &mut [u32],
    size: &mut [u32],
    start: &mut [u32],
    length: &mut [u32],
) -> Result<u32, Refusal>
    ensures { Read dictionary.now document.now label.old size.old start.old length.old label.new size.new start.new length.new (code_of result) (place_of result) (rows_of result) }
{
    let mut index = [0u16; 11264];
    let names = dictionary::learn_names(dictionary, &mut index).ok_or(Refusal::BadDictionary)?;
    if MOST_BYTES < document.len() {
        return Err(Refusal::TooLong);
    }
    read_rows(
        dictionary, document, names, &mut index, label, size, start, length,
    )
}

// Codes 2 to 5: what is noted on the way is not looked at.
fn verdict(document: &[u8]) -> Result<u32, Refusal>
    ensures { Verdict document.now (code_of result) (place_of result) (rows_of result) }
{
    if MOST_BYTES < document.len() {
        return Err(Refusal::TooLong);
    }
    let mut notes = RowLists::new();
    match note(document, &mut notes) {
        Ok(rows) => Ok(rows as u32),
        Err(Unread::Outside(place)) => Err(outside(place)),
        Err(Unread::Beyond) => judge(document),
    }
}

// Code 1 too.
fn answer(dictionary: &[u8], document: &[u8]) -> Result<u32, Refusal>
    ensures { ReaderAnswer dictionary.now document.now 2048 (code_of result) (place_of result) (rows_of result) }
{
    dictionary::check(dictionary).ok_or(Refusal::BadDictionary)?;
    verdict(document)
}

// What the site's server asks: code times 4,294,967,296 plus the place or the rows.
const CODE: u64 = 4294967296;

pub fn check(dictionary: &[u8], document: &[u8]) -> u64
    ensures { DocumentChecked dictionary.now document.now result }
{
    match answer(dictionary, document) {
        Ok(rows) => u64::from(rows),
        Err(refusal) => u64::from(u32::from(refusal)) * CODE + u64::from(refusal.place()),
    }
}
