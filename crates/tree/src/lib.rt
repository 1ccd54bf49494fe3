#![tactic(auto)]

ghost use Rattle.std.specs.Prelude.{◌≡◌, ◌+◌, ◌<◌, ◌≤◌, length, get_or};
ghost use Rattle.meaning.specs.Calls.{Says};
ghost use Rattle.tree.specs.Rows.{Below, GoodRows};
ghost use Rattle.tree.specs.Shape.{Shape};
ghost use Rattle.tree.specs.Endings.{Told, EndingPost, NestedPre};
ghost use Rattle.tree.specs.Places.{SameRows};
ghost use Rattle.tree.specs.Helpers.{SamePre, CountPre, CountPost, PastPre, PastPost, HolderPre, HolderPost, ChildPre, ChildPost, ListPre, ListPost};

// A tree as it is lent: the label and the size of each row, in preorder.
#[derive(Clone, Copy)]
pub struct Tree<'a> {
    pub label: &'a [u32],
    pub size: &'a [u32],
}

// The number at i as a place, by one name: `s[i] as usize` in forty places would say no more, and each would ask again that i is in the list.
pub fn at(s: &[u32], i: usize) -> usize
    requires { i < length s.now }
    ensures { (result ≡ get_or s.now i 0) × (result < 4294967296) }
{
    s[i] as usize
}

// The row after the term at the row.
pub fn next(size: &[u32], row: usize) -> usize
    requires { row < length size.now }
    ensures { result ≡ row + get_or size.now row 0 }
{
    row + at(size, row)
}

// Whether every row has a size and ends within the rows. Counts how many end at each place, into a list that is lent full of zeros.
fn ending(size: &[u32], closing: &mut [u16; 2049]) -> bool
    requires { Told size.now closing.old 0 }
    ensures { EndingPost size.now closing.new result }
{
    let rows = size.len();
    for row in 0..rows {
        let after = next(size, row);
        if after == row || rows < after {
            return false;
        }
        closing[after] += 1;
    }
    true
}

// Whether each row ends within the row that holds it, and none is deeper than 64. How many rows are closed is read and not found out by
// comparing ends, so that no branch depends on the tree.
#[tactic(auto, using(crate::proofs::Turns::too_deep))]
fn nested(size: &[u32], closing: &[u16; 2049]) -> bool
    requires { NestedPre size.now closing.now }
    ensures { Says result (Shape size.now) }
{
    let rows = size.len();
    // The ends of the open rows, the root's first.
    let mut ends = [0usize; 64];
    ends[0] = rows;
    let mut opened = 1;
    for row in 1..rows {
        let depth = opened - usize::from(closing[row]);
        let after = next(size, row);
        if ends[depth - 1] < after {
            return false;
        }
        if depth == 64 {
            return false;
        }
        ends[depth] = after;
        opened = depth + 1;
    }
    true
}

// Whether the sizes are those of a term that has at most 2,048 rows and is at most 64 deep. What ends where is counted first: a loop
// that would read what it has just written takes twice as long as the two.
pub fn shape(size: &[u32]) -> bool
    ensures { Says result (Shape size.now × (length size.now ≤ 2048)) }
{
    let rows = size.len();
    if rows == 0 {
        return false;
    }
    if 2048 < rows {
        return false;
    }
    if at(size, 0) != rows {
        return false;
    }
    let mut closing = [0u16; 2049];
    if ending(size, &mut closing) {
        return nested(size, &closing);
    }
    false
}

// Whether every number is below the limit.
pub fn below(s: &[u32], limit: u32) -> bool
    ensures { Says result (Below limit s.now) }
{
    // No branch depends on a number, so that many are compared at once.
    s.iter().fold(true, |all, x| all & (*x < limit))
}

// The tree check.
pub fn good(tree: &Tree) -> bool
    ensures { Says result (GoodRows tree.now.label.now tree.now.size.now) }
{
    if tree.label.len() != tree.size.len() {
        return false;
    }
    below(tree.label, 65536) && shape(tree.size)
}

// Whether k rows from a on are those from t on.
pub fn same(tree: &Tree, a: usize, t: usize, k: usize) -> bool
    requires { SamePre tree.now.label.now tree.now.size.now a t k }
    ensures { Says result (SameRows tree.now.label.now tree.now.size.now a t k) }
{
    // The lists are looked up once: compiled without proof, a loop that reaches them through the tree takes a repeated context a twelfth longer.
    let label = tree.label;
    let size = tree.size;
    // Row by row: most terms that are compared are small, and two slices of few numbers take `==` half as long again.
    for i in 0..k {
        if label[a + i] != label[t + i] {
            return false;
        }
        if size[a + i] != size[t + i] {
            return false;
        }
    }
    true
}

// The terms from row t up to e.
pub fn count(size: &[u32], t: usize, e: usize) -> usize
    requires { CountPre size.now t e }
    ensures { CountPost size.now t e result }
{
    let mut n = 0;
    let mut u = t;
    while u < e {
        u = next(size, u);
        n += 1;
    }
    n
}

// The row after c terms from row t on.
pub fn past(size: &[u32], t: usize, c: usize) -> usize
    requires { PastPre size.now t c }
    ensures { PastPost size.now t c result }
{
    let mut u = t;
    for _ in 0..c {
        u = next(size, u);
    }
    u
}

// The term that holds the row b: the one at the row `from` or a neighbour behind it.
pub fn holder(size: &[u32], from: usize, b: usize) -> usize
    requires { HolderPre size.now from b }
    ensures { HolderPost size.now from b result }
{
    let mut u = from;
    let mut e = next(size, u);
    while e <= b {
        u = e;
        e = next(size, u);
    }
    u
}

// The child of the term at row a that holds row b.
pub fn child(size: &[u32], a: usize, b: usize) -> usize
    requires { ChildPre size.now a b }
    ensures { ChildPost size.now a b result }
{
    holder(size, a + 1, b)
}

// The end of the argument list in which the row stands; the root's is the length.
pub fn list_end(size: &[u32], row: usize) -> usize
    requires { ListPre size.now row }
    ensures { ListPost size.now row result }
{
    let mut u = 0;
    let mut e = size.len();
    while u != row {
        let a = next(size, u);
        if row < a {
            e = a;
            u += 1;
        } else {
            u = a;
        }
    }
    e
}
