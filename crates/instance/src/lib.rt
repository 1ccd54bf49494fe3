// The instance maker: labels and sizes of a pattern under a record.
#![tactic(auto)]

ghost use Rattle.instance.specs.Instance.{lists_of, InstanceSettled};

mod counting;
mod value;
mod write;

use counting::rows_of;
use meaning::Refusal;
use pattern::Pattern;
use tree::Tree;
use write::term;

// The most rows that an instance may have.
const MOST: usize = 2048;

// Writes labels and sizes of the pattern under the record, and answers their rows.
pub fn instance(
    tree: &Tree,
    pattern: &Pattern,
    record: &[u32],
    out_label: &mut [u32],
    out_size: &mut [u32],
) -> Result<usize, Refusal>
    ensures { InstanceSettled (lists_of tree.now pattern.now «record».now) out_label.old out_size.old result out_label.new out_size.new }
{
    if !tree::good(tree) {
        return Err(Refusal::Tree);
    }
    let checked = pattern::check(pattern);
    if !checked.good {
        return Err(Refusal::Pattern);
    }
    if !record::fits(tree.size, &checked.kinds, checked.variables, record) {
        return Err(Refusal::Record);
    }
    let rows = rows_of(tree.size, pattern, record);
    if MOST < rows {
        return Err(Refusal::TooLarge);
    }
    if out_label.len() < rows {
        return Err(Refusal::NoRoom);
    }
    if out_size.len() < rows {
        return Err(Refusal::NoRoom);
    }
    term(tree, pattern, record, 0, 0, out_label, out_size);
    Ok(rows)
}
