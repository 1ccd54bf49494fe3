// A variable's later appearance: what it stands for, at its place in the tree, against what stands where it appears again.
#![tactic(auto)]

ghost use Rattle.compare.specs.Appear.{AlikePre, AlikePost, AgainPre, AgainPost, LeftPre, LeftPost, LevelPre, FitsPre, LevelPost, FitsPost};

use tree::Tree;

// Whether the terms from row a up to b are those from row t up to u.
pub fn alike(tree: &Tree, a: usize, b: usize, t: usize, u: usize) -> bool
    requires { AlikePre tree.now.label.now tree.now.size.now a b t u }
    ensures { AlikePost tree.now.label.now tree.now.size.now a b t u result }
{
    if b - a != u - t {
        return false;
    }
    tree::same(tree, a, t, u - t)
}

// The c terms from row a on, again from row t on in a list that ends at e: the row behind them. Term by term, so that nothing is looked at
// behind the first one that differs.
#[tactic(auto, using(crate::proofs::Sequences::compared_differs))]
pub fn again(tree: &Tree, a: usize, c: usize, t: usize, e: usize) -> Option<usize>
    requires { AgainPre tree.now.label.now tree.now.size.now a c t e }
    ensures { AgainPost tree.now.label.now tree.now.size.now a c t e result }
{
    // Looked up once: compiled without proof, a loop that reaches the sizes through the tree takes a repeated sequence a thirtieth longer.
    let size = tree.size;
    let mut here = a;
    let mut there = t;
    for _ in 0..c {
        if there == e {
            return None;
        }
        let behind = tree::next(size, here);
        let after = tree::next(size, there);
        if !alike(tree, here, behind, there, after) {
            return None;
        }
        here = behind;
        there = after;
    }
    Some(there)
}

// The terms from row a on, up to the one that holds row b, again from row t on in a list that ends at e: the row behind them.
fn left(tree: &Tree, a: usize, b: usize, t: usize, e: usize) -> Option<usize>
    requires { LeftPre tree.now.label.now tree.now.size.now a b t e }
    ensures { LeftPost tree.now.label.now tree.now.size.now a b t e result }
{
    let mut u = a;
    let mut v = t;
    loop {
        let behind = tree::next(tree.size, u);
        if b < behind {
            return Some(v);
        }
        if v == e {
            return None;
        }
        let after = tree::next(tree.size, v);
        if !alike(tree, u, behind, v, after) {
            return None;
        }
        u = behind;
        v = after;
    }
}

// The arguments of the term at row t against those of the term at row a, all but the one that holds row b: the row of what stands for
// that one.
#[tactic(auto, using(crate::proofs::Levels::level_at))]
fn level(tree: &Tree, a: usize, b: usize, t: usize) -> Option<usize>
    requires { LevelPre tree.now.label.now tree.now.size.now a b t }
    ensures { LevelPost tree.now.label.now tree.now.size.now a b t result }
{
    let e = tree::next(tree.size, t);
    let v = left(tree, a + 1, b, t + 1, e)?;
    if v == e {
        return None;
    }
    let right = tree::next(tree.size, a + (v - t));
    let end = tree::next(tree.size, a);
    let there = tree::next(tree.size, v);
    if alike(tree, right, end, there, e) {
        return Some(v);
    }
    None
}

// The context from row a to its hole at row b against the term at row t: the row of what fills the hole there.
pub fn fits(tree: &Tree, a: usize, b: usize, t: usize) -> Option<usize>
    requires { FitsPre tree.now.label.now tree.now.size.now a b t }
    ensures { FitsPost tree.now.label.now tree.now.size.now a b t result }
{
    let mut from = a;
    let mut row = t;
    while from != b {
        if tree::at(tree.label, from) != tree::at(tree.label, row) {
            return None;
        }
        let v = level(tree, from, b, row)?;
        from += v - row;
        row = v;
    }
    Some(row)
}
