// A variable that the walk asked for: how many values it has, the row at which the walk goes on with each, and which of them fail at
// once.
#![tactic(auto)]

ghost use Rattle.std.specs.Prelude.{◌≡◌, ◌+◌, ◌*◌, ◌<◌, ◌≤◌, length, get_or};
ghost use Rattle.walk.specs.Packed.{numbers_of};
ghost use Rattle.choice.specs.Stops.{AtStop, LeastPost, ValuesPost, LandingPre, LandingPost, FurtherPre, FurtherPost, FewerPre, Fewer, MorePre, MorePost};
ghost use Rattle.choice.specs.Runs.{HolesPost, NeighboursPre, NeighboursPost, WholePre, WholePost, LevelPre, SkipPost};

use meaning::kinds::{SEQUENCE, SYMBOL};
use tree::Tree;
use walk::PatternRow;

// Values that fail: how many, and the row at which the walk goes on with the next.
#[derive(Drop)]
pub struct Run {
    pub count: usize,
    pub row: usize,
}

// The least value: the row of a context's start, or no terms.
pub fn least(pattern: &[PatternRow; 256], p: usize, s: usize) -> usize
    requires { 6 * p + 5 < length (numbers_of pattern.now) }
    ensures { LeastPost (numbers_of pattern.now) p s result }
{
    if walk::kind(pattern, p) == SEQUENCE {
        0
    } else {
        s
    }
}

// How many values there are: a row of the term each, or a count of the terms that are left in the list.
pub fn values(
    size: &[u32],
    pattern: &[PatternRow; 256],
    at: &[usize; 256],
    p: usize,
    s: usize,
) -> usize
    requires { AtStop size.now (numbers_of pattern.now) at.now p s }
    ensures { ValuesPost size.now (numbers_of pattern.now) at.now p s result }
{
    if walk::kind(pattern, p) != SEQUENCE {
        return tree::at(size, s);
    }
    let h = walk::holder(pattern, p);
    let g = walk::row(at, h);
    tree::count(size, s, tree::next(size, g)) + 1
}

// The row at which the walk goes on with the value v.
pub fn landing(size: &[u32], pattern: &[PatternRow; 256], p: usize, s: usize, v: usize) -> usize
    requires { LandingPre size.now (numbers_of pattern.now) p s v }
    ensures { LandingPost size.now (numbers_of pattern.now) p s v result }
{
    if walk::kind(pattern, p) == SEQUENCE {
        return tree::past(size, s, v);
    }
    v
}

// The row of the next value: behind one term more of a sequence, or one row further for a context's hole. The last stays.
pub fn further(size: &[u32], pattern: &[PatternRow; 256], p: usize, u: usize, left: usize) -> usize
    requires { FurtherPre size.now (numbers_of pattern.now) p u left }
    ensures { FurtherPost size.now (numbers_of pattern.now) p u left result }
{
    if left == 0 {
        return u;
    }
    if walk::kind(pattern, p) == SEQUENCE {
        return tree::next(size, u);
    }
    u + 1
}

// How many of the terms that start at the row u are left from the row s on, if one of them or the end of their list is there.
fn fewer(size: &[u32], u: usize, s: usize, left: usize) -> Option<usize>
    requires { FewerPre size.now u s left }
    ensures { Fewer size.now u s left result }
{
    let mut row = u;
    let mut n = left;
    while row < s {
        row = tree::next(size, row);
        n -= 1;
    }
    if row == s {
        return Some(n);
    }
    None
}

// How many values there are, behind the variable at the pattern row q: the walk went on at the row u with its value, and it has left
// more. Where both stand in one list, only the terms between them are counted.
pub fn more_values(
    size: &[u32],
    pattern: &[PatternRow; 256],
    at: &[usize; 256],
    q: usize,
    u: usize,
    left: usize,
    p: usize,
    s: usize,
) -> usize
    requires { MorePre size.now (numbers_of pattern.now) at.now q u left p s }
    ensures { MorePost size.now (numbers_of pattern.now) at.now q u left p s result }
{
    if walk::kind(pattern, q) == SEQUENCE
        && walk::kind(pattern, p) == SEQUENCE
        && walk::holder(pattern, q) == walk::holder(pattern, p)
    {
        if let Some(n) = fewer(size, u, s, left) {
            return n + 1;
        }
    }
    values(size, pattern, at, p, s)
}

// The rows from one on that have another label.
fn holes(label: &[u32], symbol: usize, row: usize, limit: usize) -> usize
    requires { row + limit ≤ length label.now }
    ensures { HolesPost label.now symbol row limit result }
{
    for count in 0..limit {
        if tree::at(label, row + count) == symbol {
            return count;
        }
    }
    limit
}

// The neighbours from a row on that have another label.
fn neighbours(tree: &Tree, symbol: usize, row: usize, limit: usize) -> Run
    requires { NeighboursPre tree.now.label.now tree.now.size.now row limit }
    ensures { NeighboursPost tree.now.label.now tree.now.size.now symbol row limit result.count result.row }
{
    let mut u = row;
    for count in 0..limit {
        if tree::at(tree.label, u) == symbol {
            return Run { count, row: u };
        }
        u = tree::next(tree.size, u);
    }
    Run {
        count: limit,
        row: u,
    }
}

// The values of a sequence variable that ends its list: all but the last leave terms behind.
fn whole(size: &[u32], at: &[usize; 256], h: usize, u: usize, left: usize, limit: usize) -> Run
    requires { WholePre size.now at.now h u left limit }
    ensures { WholePost size.now at.now h u left limit result.count result.row }
{
    if limit + 1 == left {
        let row = tree::next(size, walk::row(at, h));
        return Run { count: limit, row };
    }
    let row = tree::past(size, u, limit);
    Run { count: limit, row }
}

// The values of a sequence variable that fail at once: those before a term with another label than the symbol behind it.
fn terms(
    tree: &Tree,
    pattern: &[PatternRow; 256],
    at: &[usize; 256],
    p: usize,
    u: usize,
    left: usize,
    limit: usize,
) -> Run
    requires { LevelPre tree.now.label.now tree.now.size.now (numbers_of pattern.now) at.now p u left limit × (get_or (numbers_of pattern.now) (6 * p) 0 ≡ 2) }
    ensures { SkipPost tree.now.label.now tree.now.size.now (numbers_of pattern.now) at.now p u left limit result.count result.row }
{
    let h = walk::holder(pattern, p);
    if p + 1 == walk::next(pattern, h) {
        return whole(tree.size, at, h, u, left, limit);
    }
    if walk::kind(pattern, p + 1) == SYMBOL {
        let symbol = walk::name(pattern, p + 1);
        return neighbours(tree, symbol, u, limit);
    }
    Run { count: 0, row: u }
}

// The next values of the variable at the pattern row p that fail at once, at most limit of the left ones; the walk goes on at the row
// u with the first of these.
pub fn skip(
    tree: &Tree,
    pattern: &[PatternRow; 256],
    at: &[usize; 256],
    p: usize,
    u: usize,
    left: usize,
    limit: usize,
) -> Run
    requires { LevelPre tree.now.label.now tree.now.size.now (numbers_of pattern.now) at.now p u left limit }
    ensures { SkipPost tree.now.label.now tree.now.size.now (numbers_of pattern.now) at.now p u left limit result.count result.row }
{
    if walk::kind(pattern, p) == SEQUENCE {
        return terms(tree, pattern, at, p, u, left, limit);
    }
    if walk::kind(pattern, p + 1) == SYMBOL {
        let symbol = walk::name(pattern, p + 1);
        let count = holes(tree.label, symbol, u, limit);
        let row = u + count;
        return Run { count, row };
    }
    Run { count: 0, row: u }
}
