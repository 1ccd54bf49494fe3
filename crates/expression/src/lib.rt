#![tactic(auto)]

ghost use Rattle.std.specs.Prelude.{◌≡◌, List, ◌<◌, ◌≤◌, length};
ghost use Rattle.meaning.specs.Calls.{Says};
ghost use Rattle.expression.specs.Expression.{Expression};
ghost use Rattle.expression.specs.Rows.{GoodTable, StartsAt};
ghost use Rattle.expression.specs.Columns.{size_rows};
ghost use Rattle.expression.specs.Rule.{number_at, NameFits, SizeFits};

pub mod kinds;

use kinds::{REPETITION, SYMBOL};

// An expression table as it is lent: the kind, the name and the size of each row, whole expressions one after another in preorder.
#[derive(Clone, Copy)]
pub struct Table<'a> {
    pub kind: &'a [u32],
    pub name: &'a [u32],
    pub size: &'a [u32],
}

// Whether a row of this kind may have this name.
fn named(kind: u32, name: u32) -> bool
    ensures { Says result (NameFits kind name) }
{
    if kind == SYMBOL {
        return name < 65536;
    }
    name == 0
}

// Whether the parts of the row are rows, and its size is that of its parts and itself.
fn sized(kind: &[u32], size: &[u32], row: usize) -> bool
    requires { (row < length kind.now) × (length kind.now ≤ 64) × (length size.now ≡ length kind.now) }
    ensures { Says result (SizeFits (number_at kind.now) (number_at size.now) (length kind.now) row) }
{
    let n = kind.len();
    let k = kind[row];
    let own = size[row] as usize;
    if 5 <= k {
        return false;
    }
    if k < 2 {
        return own == 1;
    }
    let l = row + 1;
    if n <= l {
        return false;
    }
    let left = size[l] as usize;
    if k == REPETITION {
        return own == left + 1;
    }
    let r = l + left;
    if n <= r {
        return false;
    }
    let right = size[r] as usize;
    own == left + right + 1
}

// Code 13: whether the three lists are whole expressions one after another, within the limits.
pub fn good(table: &Table) -> bool
    ensures { Says result ((es : List Expression) × GoodTable table.now.kind.now table.now.name.now table.now.size.now es) }
{
    let n = table.kind.len();
    if 64 < n {
        return false;
    }
    if table.name.len() != n {
        return false;
    }
    if table.size.len() != n {
        return false;
    }
    for i in 0..n {
        if !named(table.kind[i], table.name[i]) {
            return false;
        }
        if !sized(table.kind, table.size, i) {
            return false;
        }
    }
    true
}

// Whether a top-level expression starts at the row, the sizes being those of a good table.
pub fn starts(size: &[u32], row: usize) -> bool
    requires { (es : List Expression) × (size.now ≡ size_rows es) }
    ensures { (es : List Expression) → size.now ≡ size_rows es → Says result ((e : Expression) × StartsAt es e row) }
{
    let mut at = 0;
    while at < size.len() {
        if row <= at {
            return row == at;
        }
        at += size[at] as usize;
    }
    false
}
