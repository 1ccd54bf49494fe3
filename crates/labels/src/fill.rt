// The lent lists, from rows that are noted.
ghost use Rattle.std.specs.Prelude.{◌≡◌, List, ◌++◌, ℕ, ◌≤◌, ◌<◌};
ghost use lib.ListN.{length, take, drop};
ghost use Rattle.grammar.specs.Rows.{Sort, label_of};
ghost use Rattle.grammar.specs.Told.{Tells};
ghost use Rattle.labels.specs.Lists.{Long, Copied};
ghost use Rattle.labels.specs.Labelling.{MayLabelRows, LabelsRows};

use super::note::RowLists;

// The first numbers of a list of our own into a lent one, which are wider: so no `copy_from_slice`.
fn copy(from: &[u16; 2052], to: &mut [u32], count: usize)
    requires { (length from.now ≡ 2052) × (count ≤ 2052) × (count ≤ length to.old) }
    ensures { to.new ≡ take count from.now ++ drop count to.old }
{
    for i in 0..count {
        to[i] = u32::from(from[i]);
    }
}

// The three lists of so many rows into lent ones.
pub fn copy_rows(
    notes: &RowLists,
    start: &mut [u32],
    length: &mut [u32],
    size: &mut [u32],
    rows: usize,
)
    requires { Long notes.now.starts notes.now.lengths notes.now.sizes × (rows ≤ 2052) × (rows ≤ lib.ListN.length start.old) × (rows ≤ lib.ListN.length length.old) × (rows ≤ lib.ListN.length size.old) }
    ensures { Copied rows notes.now.starts notes.now.lengths notes.now.sizes start.old length.old size.old start.new length.new size.new }
{
    copy(&notes.starts, start, rows);
    copy(&notes.lengths, length, rows);
    copy(&notes.sizes, size, rows);
}

// The label of a row whose spelling starts at `from` and has this number: twice the number for an element's, one more for a text's. The byte
// before tells which it is, `<` or the `>` of another tag.
fn label_of(document: &[u8], from: usize, number: usize) -> u32
    requires { ((sort : Sort) × Tells document.now from sort) × (from ≤ length document.now) × (number < 65536) }
    ensures { (sort : Sort) → Tells document.now from sort → result ≡ label_of sort number }
{
    let twice = 2 * number as u32;
    if document[from - 1] == b'<' {
        return twice;
    }
    twice + 1
}

// The labels of the rows that are noted. Their starts and lengths are read from the lists of our own, not the lent ones, which have the same
// numbers: two places fewer to keep in mind in the loop.
pub fn label_rows(
    dictionary: &[u8],
    document: &[u8],
    names: usize,
    index: &mut [u16],
    label: &mut [u32],
    notes: &RowLists,
    rows: usize,
)
    requires { (known : List (List ℕ)) × (sorts : List Sort) × (spellings : List (List ℕ)) × MayLabelRows dictionary.now document.now names index.old label.old notes.now.starts notes.now.lengths rows known sorts spellings }
    ensures { LabelsRows dictionary.now document.now names index.old label.old notes.now.starts notes.now.lengths rows label.new }
{
    let mut count = names;
    for row in 0..rows {
        let from = usize::from(notes.starts[row]);
        let to = from + usize::from(notes.lengths[row]);
        let found = dictionary::index::number_of(
            dictionary, document, names, index, count, from, to,
        );
        label[row] = label_of(document, from, found);
        // A number that is not among the known ones is new.
        let new = usize::from(found == count);
        count += new;
    }
}
