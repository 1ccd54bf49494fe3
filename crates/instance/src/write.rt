// The instance of a pattern term, written in preorder.
ghost use Rattle.instance.specs.Cycle.{TermPre, TermPost, HeadedPre};

use super::value::{context, filling, head, individual, sequence};
use meaning::kinds::{CONTEXT, INDIVIDUAL, SEQUENCE};
use pattern::Pattern;
use tree::Tree;

// Writes the instance of the pattern term at the row, and answers the row behind it.
#[cycle(headed_term)]
pub fn term(
    tree: &Tree,
    pattern: &Pattern,
    record: &[u32],
    row: usize,
    to: usize,
    out_label: &mut [u32],
    out_size: &mut [u32],
) -> usize
    requires { TermPre tree.now.label.now tree.now.size.now pattern.now.kind.now pattern.now.name.now pattern.now.size.now «record».now out_label.old out_size.old row to }
    ensures { TermPost tree.now.label.now tree.now.size.now pattern.now.kind.now pattern.now.name.now pattern.now.size.now «record».now out_label.old out_size.old row to result out_label.new out_size.new }
{
    let k = pattern.kind[row];
    if k == INDIVIDUAL {
        let variable = pattern.name[row] as usize;
        return individual(tree, record, variable, to, out_label, out_size);
    }
    if k == CONTEXT {
        let x = pattern.name[row] as usize;
        let first = filling(record, x, to);
        let p = row + 1;
        let end = term(tree, pattern, record, p, first, out_label, out_size);
        return context(tree, record, x, to, first, end, out_label, out_size);
    }
    headed(tree, pattern, record, row, to, out_label, out_size)
}

// The same where the term is a symbol or a function variable: its arguments, then its own row. A loop, so that the recursion is no deeper than the pattern.
#[cycle(headed_term)]
fn headed(
    tree: &Tree,
    pattern: &Pattern,
    record: &[u32],
    row: usize,
    to: usize,
    out_label: &mut [u32],
    out_size: &mut [u32],
) -> usize
    requires { HeadedPre tree.now.label.now tree.now.size.now pattern.now.kind.now pattern.now.name.now pattern.now.size.now «record».now out_label.old out_size.old row to }
    ensures { TermPost tree.now.label.now tree.now.size.now pattern.now.kind.now pattern.now.name.now pattern.now.size.now «record».now out_label.old out_size.old row to result out_label.new out_size.new }
{
    let last = row + pattern.size[row] as usize;
    let mut p = row + 1;
    let mut end = to + 1;
    while p != last {
        if pattern.kind[p] == SEQUENCE {
            let variable = pattern.name[p] as usize;
            end = sequence(tree, record, variable, end, out_label, out_size);
            p += 1;
        } else {
            end = term(tree, pattern, record, p, end, out_label, out_size);
            p += pattern.size[p] as usize;
        }
    }
    head(
        tree.label, pattern, record, row, to, end, out_label, out_size,
    );
    end
}
