// What is written of one value: its rows copied, and for a context what stands around its hole.
ghost use Rattle.std.specs.Prelude.{◌≡◌, ◌+◌};
ghost use Rattle.std.proofs.lemmas.List.Edits.{sets};
ghost use Rattle.instance.specs.Places.{along, number, resized};
ghost use Rattle.instance.specs.Pieces.{CopyPre, ResizedPre, AbovePre, AroundPre, AroundPost, IndividualPre, IndividualPost, SequencePre, SequencePost, FillingPre, FillingPost, ContextPre, ContextPost, HeadPre, HeadPost};

use meaning::kinds::SYMBOL;
use pattern::Pattern;
use tree::Tree;

// Copies so many numbers, to the places from `to` on. One by one: a copy of a part whose length is not known would ask whoever links the
// archive for `memmove` too.
fn copy(list: &[u32], from: usize, count: usize, out: &mut [u32], to: usize)
    requires { CopyPre list.now out.old from count to }
    ensures { out.new ≡ sets out.old to (along (number list.now) from count) }
{
    for i in 0..count {
        out[to + i] = list[from + i];
    }
}

// Copies so many rows, to the rows from `to` on, and answers the row behind them.
// The two lists that are written stay two parameters, here and in all that call it: into a struct of two `&mut` a function could put other
// lists, so that each clause had to say besides that it holds the same two (their ghost names) and that they are as long as before.
fn copy_rows(
    tree: &Tree,
    from: usize,
    count: usize,
    to: usize,
    out_label: &mut [u32],
    out_size: &mut [u32],
) -> usize
    requires labels { CopyPre tree.now.label.now out_label.old from count to }
    requires sizes { CopyPre tree.now.size.now out_size.old from count to }
    ensures labels { out_label.new ≡ sets out_label.old to (along (number tree.now.label.now) from count) }
    ensures sizes { out_size.new ≡ sets out_size.old to (along (number tree.now.size.now) from count) }
    ensures end { result ≡ to + count }
{
    copy(tree.label, from, count, out_label, to);
    copy(tree.size, from, count, out_size, to);
    to + count
}

// The size of a row where the term at the hole, of so many rows, has made place for another.
fn resized(size: &[u32], hole: usize, taken: usize, filled: usize, row: usize) -> u32
    requires { ResizedPre size.now hole taken filled row }
    ensures { result ≡ resized size.now hole taken filled row }
{
    let rows = tree::at(size, row);
    if hole < row + rows {
        return (rows + filled - taken) as u32;
    }
    size[row]
}

// Copies the sizes of so many rows before the hole: those that stand above it change.
fn copy_above(
    size: &[u32],
    from: usize,
    count: usize,
    hole: usize,
    taken: usize,
    filled: usize,
    out: &mut [u32],
    to: usize,
)
    requires { AbovePre size.now out.old from count hole taken filled to }
    ensures { out.new ≡ sets out.old to (along (resized size.now hole taken filled) from count) }
{
    for i in 0..count {
        out[to + i] = resized(size, hole, taken, filled, from + i);
    }
}

// Writes what stands around the hole of the context from `start` to `hole`, where the hole is filled already.
fn around(
    tree: &Tree,
    start: usize,
    hole: usize,
    to: usize,
    filled: usize,
    out_label: &mut [u32],
    out_size: &mut [u32],
) -> usize
    requires { AroundPre tree.now.label.now tree.now.size.now out_label.old out_size.old start hole to filled }
    ensures { AroundPost tree.now.label.now tree.now.size.now out_label.old out_size.old start hole to filled result out_label.new out_size.new }
{
    let left = hole - start;
    let taken = tree::at(tree.size, hole);
    let behind = hole + taken;
    let right = tree::next(tree.size, start) - behind;
    let next = to + left + filled;
    let end = copy_rows(tree, behind, right, next, out_label, out_size);
    copy(tree.label, start, left, out_label, to);
    copy_above(tree.size, start, left, hole, taken, filled, out_size, to);
    end
}

// Writes the value of an individual variable.
pub fn individual(
    tree: &Tree,
    record: &[u32],
    variable: usize,
    to: usize,
    out_label: &mut [u32],
    out_size: &mut [u32],
) -> usize
    requires { IndividualPre tree.now.label.now tree.now.size.now «record».now out_label.old out_size.old variable to }
    ensures { IndividualPost tree.now.label.now tree.now.size.now «record».now out_label.old out_size.old variable to result out_label.new out_size.new }
{
    let row = tree::at(record, variable + variable);
    let rows = tree::at(tree.size, row);
    copy_rows(tree, row, rows, to, out_label, out_size)
}

// Writes the value of a sequence variable.
pub fn sequence(
    tree: &Tree,
    record: &[u32],
    variable: usize,
    to: usize,
    out_label: &mut [u32],
    out_size: &mut [u32],
) -> usize
    requires { SequencePre tree.now.label.now tree.now.size.now «record».now out_label.old out_size.old variable to }
    ensures { SequencePost tree.now.label.now tree.now.size.now «record».now out_label.old out_size.old variable to result out_label.new out_size.new }
{
    let start = tree::at(record, variable + variable);
    let count = tree::at(record, variable + variable + 1);
    let rows = tree::past(tree.size, start, count) - start;
    copy_rows(tree, start, rows, to, out_label, out_size)
}

// The row of a context variable's hole, where the context starts at the row `to`.
pub fn filling(record: &[u32], variable: usize, to: usize) -> usize
    requires { FillingPre «record».now variable to }
    ensures { FillingPost «record».now variable to result }
{
    let start = tree::at(record, variable + variable);
    let hole = tree::at(record, variable + variable + 1);
    to + (hole - start)
}

// Writes the value of a context variable around what is written from `first` up to `end`, in its hole.
pub fn context(
    tree: &Tree,
    record: &[u32],
    variable: usize,
    to: usize,
    first: usize,
    end: usize,
    out_label: &mut [u32],
    out_size: &mut [u32],
) -> usize
    requires { ContextPre tree.now.label.now tree.now.size.now «record».now out_label.old out_size.old variable to first end }
    ensures { ContextPost tree.now.label.now tree.now.size.now «record».now out_label.old out_size.old variable to first end result out_label.new out_size.new }
{
    let start = tree::at(record, variable + variable);
    let hole = tree::at(record, variable + variable + 1);
    around(tree, start, hole, to, end - first, out_label, out_size)
}

// Writes the row of a symbol or a function variable, whose arguments end at `end`.
pub fn head(
    label: &[u32],
    pattern: &Pattern,
    record: &[u32],
    row: usize,
    to: usize,
    end: usize,
    out_label: &mut [u32],
    out_size: &mut [u32],
)
    requires { HeadPre label.now pattern.now.kind.now pattern.now.name.now «record».now out_label.old out_size.old row to end }
    ensures { HeadPost label.now pattern.now.kind.now pattern.now.name.now «record».now out_label.old out_size.old row to end out_label.new out_size.new }
{
    out_size[to] = (end - to) as u32;
    if pattern.kind[row] == SYMBOL {
        out_label[to] = pattern.name[row];
        return;
    }
    let name = pattern.name[row] as usize;
    let place = tree::at(record, name + name);
    out_label[to] = label[place];
}
