#![tactic(auto)]

ghost use Rattle.std.specs.Prelude.{◌≡◌, ◌≤◌, length};
ghost use Rattle.meaning.specs.Calls.{Says};
ghost use Rattle.meaning.specs.Pattern.{an_individual, a_sequence, a_function, a_context};
ghost use Rattle.record.specs.Good.{GoodRecordList};
ghost use Rattle.record.specs.Pairs.{RowsPre, FitsPost, PairPost, RecordPre, RecordPost};
ghost use Rattle.record.specs.Copied.{Copied};

use meaning::kinds::{CONTEXT, SEQUENCE};
use pattern::Pattern;
use tree::Tree;

// An individual or a function variable: its row is in the tree, and the second number is 0.
fn row_fits(size: &[u32], a: usize, b: usize) -> bool
    requires { RowsPre size.now }
    ensures { FitsPost size.now an_individual a b result × FitsPost size.now a_function a b result }
{
    if size.len() <= a {
        return false;
    }
    b == 0
}

// A sequence variable: so many neighbours stand from its start on, in the list in which it starts.
fn sequence_fits(size: &[u32], a: usize, b: usize) -> bool
    requires { RowsPre size.now }
    ensures { FitsPost size.now a_sequence a b result }
{
    if size.len() < a {
        return false;
    }
    if size.len() == a {
        return b == 0;
    }
    b <= tree::count(size, a, tree::list_end(size, a))
}

// A context variable: its hole is in the subterm where it starts.
fn context_fits(size: &[u32], a: usize, b: usize) -> bool
    requires { RowsPre size.now }
    ensures { FitsPost size.now a_context a b result }
{
    if size.len() <= a {
        return false;
    }
    if b < a {
        return false;
    }
    b < tree::next(size, a)
}

// The numbers a and b for a variable of the kind with this number.
#[tactic(auto, using(crate::proofs::Each::pair_context))]
fn pair_fits(size: &[u32], kind: u32, a: usize, b: usize) -> bool
    requires { RowsPre size.now }
    ensures { PairPost size.now kind a b result }
{
    if kind == SEQUENCE {
        return sequence_fits(size, a, b);
    }
    if kind == CONTEXT {
        return context_fits(size, a, b);
    }
    row_fits(size, a, b)
}

// Whether a record is good for the rows of a tree and the kinds of a pattern's variables.
pub fn fits(size: &[u32], kinds: &[u32; 16], variables: usize, record: &[u32]) -> bool
    requires { RecordPre size.now kinds.now variables }
    ensures { RecordPost size.now kinds.now variables «record».now result }
{
    if record.len() != variables + variables {
        return false;
    }
    for x in 0..variables {
        let a = tree::at(record, x + x);
        let b = tree::at(record, x + x + 1);
        if !pair_fits(size, kinds[x], a, b) {
            return false;
        }
    }
    true
}

// Whether the first numbers of found are those of the list.
#[tactic(auto, using(crate::proofs::Same::says_copied))]
pub fn equal(found: &[u32; 32], list: &[u32]) -> bool
    requires { (length found.now ≡ 32) × (length list.now ≤ 32) }
    ensures { Says result (Copied list.now found.now) }
{
    &found[..list.len()] == list
}

// Code 15: whether the record is good, for the tree and the pattern.
pub fn good(tree: &Tree, pattern: &Pattern, record: &[u32]) -> bool
    ensures { Says result (GoodRecordList tree.now.label.now tree.now.size.now pattern.now.kind.now pattern.now.name.now pattern.now.size.now «record».now) }
{
    if !tree::good(tree) {
        return false;
    }
    let checked = pattern::check(pattern);
    if !checked.good {
        return false;
    }
    fits(tree.size, &checked.kinds, checked.variables, record)
}
