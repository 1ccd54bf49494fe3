// What stands at a place of the tree, against a symbol or a variable of the pattern. Where n variables are bound, the variable x of a good
// pattern appears for the first time if x is n, and is bound to what stands there; otherwise x < n, and what stands there is compared with
// what x stands for.
#![tactic(auto)]

ghost use Rattle.std.specs.Prelude.{◌≡◌, ◌+◌, ◌<◌, length, set};
ghost use Rattle.variable.specs.Steps.{IndividualPre, IndividualPost, HeadPre, HeadPost, SequencePre, SequencePost, ContextPre, ContextPost};

use meaning::kinds::SYMBOL;
use tree::Tree;

// What a sequence or context variable answers: where it comes first, that a value is needed; otherwise the row at which the walk
// goes on.
#[derive(Drop)]
pub enum Step {
    Fail,
    Need,
    Go(usize),
}

// Writes the numbers of the next variable, which starts at row t.
pub fn put(record: &mut [u32], n: usize, t: usize, v: usize)
    requires { (n + n + 1 < length «record».old) × (t < 4294967296) × (v < 4294967296) }
    ensures { «record».new ≡ set (set «record».old (n + n) t) (n + n + 1) v }
{
    record[n + n] = t as u32;
    record[n + n + 1] = v as u32;
}

// The individual variable x at row t: no match, or one with so many variables bound.
#[tactic(auto, using(crate::proofs::Singles::individual_same, crate::proofs::Singles::individual_differs))]
pub fn individual(tree: &Tree, record: &mut [u32], x: usize, t: usize, n: usize) -> Option<usize>
    requires { IndividualPre tree.now.label.now tree.now.size.now «record».old x t n }
    ensures { IndividualPost tree.now.label.now tree.now.size.now «record».old x t n result «record».new }
{
    if x == n {
        put(record, n, t, 0);
        return Some(n + 1);
    }
    let a = tree::at(record, x + x);
    let behind = tree::next(tree.size, a);
    let after = tree::next(tree.size, t);
    if compare::alike(tree, a, behind, t, after) {
        Some(n)
    } else {
        None
    }
}

// The head of the term at row t: the symbol or function variable x; what it answers is as above.
pub fn head(
    label: &[u32],
    record: &mut [u32],
    kind: u32,
    x: usize,
    t: usize,
    n: usize,
) -> Option<usize>
    requires { HeadPre label.now «record».old kind x t n }
    ensures { HeadPost label.now «record».old kind x t n result «record».new }
{
    if kind == SYMBOL {
        if x == tree::at(label, t) {
            return Some(n);
        }
        return None;
    }
    if x == n {
        put(record, n, t, 0);
        return Some(n + 1);
    }
    if tree::at(label, tree::at(record, x + x)) == tree::at(label, t) {
        Some(n)
    } else {
        None
    }
}

// The sequence variable x before row t of a list that ends at e.
pub fn sequence(tree: &Tree, record: &[u32], x: usize, t: usize, e: usize, n: usize) -> Step
    requires { SequencePre tree.now.label.now tree.now.size.now «record».now x t e n }
    ensures { SequencePost tree.now.label.now tree.now.size.now «record».now x t e n result }
{
    if x == n {
        return Step::Need;
    }
    let a = tree::at(record, x + x);
    let c = tree::at(record, x + x + 1);
    match compare::again(tree, a, c, t, e) {
        None => Step::Fail,
        Some(u) => Step::Go(u),
    }
}

// The context variable x at row t: where the walk goes on is the row of its hole.
pub fn context(tree: &Tree, record: &[u32], x: usize, t: usize, n: usize) -> Step
    requires { ContextPre tree.now.label.now tree.now.size.now «record».now x t n }
    ensures { ContextPost tree.now.label.now tree.now.size.now «record».now x t n result }
{
    if x == n {
        return Step::Need;
    }
    let a = tree::at(record, x + x);
    let b = tree::at(record, x + x + 1);
    match compare::fits(tree, a, b, t) {
        None => Step::Fail,
        Some(h) => Step::Go(h),
    }
}
