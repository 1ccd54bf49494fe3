// How many rows the instance has, before anything is written.
ghost use Rattle.instance.specs.Counting.{RowPre, RowPost, RowsPre, RowsPost};

use meaning::kinds::{FUNCTION, INDIVIDUAL, SEQUENCE, SYMBOL};
use pattern::Pattern;

// How many rows of the instance the pattern row adds, those of its arguments not counted.
fn row_adds(size: &[u32], pattern: &Pattern, record: &[u32], row: usize) -> usize
    requires { RowPre size.now pattern.now.kind.now pattern.now.name.now «record».now row }
    ensures { RowPost size.now pattern.now.kind.now pattern.now.name.now «record».now row result }
{
    let k = pattern.kind[row];
    if k == SYMBOL {
        return 1;
    }
    if k == FUNCTION {
        return 1;
    }
    let variable = tree::at(pattern.name, row);
    let first = tree::at(record, variable + variable);
    if k == INDIVIDUAL {
        return tree::at(size, first);
    }
    let second = tree::at(record, variable + variable + 1);
    if k == SEQUENCE {
        return tree::past(size, first, second) - first;
    }
    tree::at(size, first) - tree::at(size, second)
}

// The rows of the instance. At most 256 rows of the pattern add at most 2,048 each, so the sum fits.
pub fn rows_of(size: &[u32], pattern: &Pattern, record: &[u32]) -> usize
    requires { RowsPre size.now pattern.now.kind.now pattern.now.name.now «record».now }
    ensures { RowsPost size.now pattern.now.kind.now pattern.now.name.now «record».now result }
{
    let mut rows = 0;
    for row in 0..pattern.kind.len() {
        rows += row_adds(size, pattern, record, row);
    }
    rows
}
