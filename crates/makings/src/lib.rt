// What the instance maker answers, for a record that was listed and for one of a line.
#![tactic(auto)]

pub mod parts;
pub mod printing;

use lines::lists::{BEFORE, part, unchanged};
use lines::read_lists;
use parts::room;
use pattern::Pattern;
use printing::{Bracketed, unreadable};
use std::{array, io};
use tree::Tree;

// So many numbers fit the lists of a line.
const NUMBERS: usize = 2048;

// A little more than the most rows of an instance.
const ROWS: usize = 2100;

// The lists that the instance maker is lent.
#[derive(Drop)]
struct Lent {
    label: [u32; ROWS],
    size: [u32; ROWS],
}

impl Lent {
    fn new() -> Lent {
        Lent {
            label: [BEFORE; ROWS],
            size: [BEFORE; ROWS],
        }
    }
}

fn is_tree(tree: &Tree<'_>, made: &Lent, rows: usize) -> bool {
    rows == tree.label.len()
        && rows == tree.size.len()
        && made.label.starts_with(tree.label)
        && made.size.starts_with(tree.size)
}

fn print_kept(rt: &impl Print, made: &Lent, rows: usize) -> io::Result<()> {
    if unchanged(&made.label, rows) && unchanged(&made.size, rows) {
        return Ok(());
    }
    print!(rt; ", list changed")
}

// The instance of a record that was listed.
pub fn of_record(
    rt: &impl Print,
    tree: &Tree<'_>,
    pattern: &Pattern<'_>,
    record: &[u32],
) -> io::Result<()> {
    let mut made = Lent::new();
    match instance::instance(tree, pattern, record, &mut made.label, &mut made.size) {
        Err(refusal) => print!(rt; " refused {}", u32::from(refusal)),
        Ok(rows) => {
            print!(rt; " rows {rows}")?;
            print_kept(rt, &made, rows)?;
            if is_tree(tree, &made, rows) {
                print!(rt; ", the tree")
            } else {
                print!(rt; ", not the tree")
            }
        }
    }
}

// The list's first numbers, or all of them where it has fewer.
fn beginning(list: &[u32], many: usize) -> Bracketed<'_> {
    Bracketed(&list[..many.min(list.len())])
}

// The instance of a record of the line.
pub fn instance(rt: &impl Print, tree: &Tree<'_>, lists: &[u8]) -> io::Result<()> {
    let mut numbers = [0; NUMBERS];
    let mut ends = [0; 6];
    if read_lists(lists, &mut numbers, &mut ends) != Some(6) {
        return unreadable(rt);
    }
    let [kind, name, size, record, labels, sizes]: [&[u32]; 6] = array::from_fn(|list| part(
        &numbers, &ends, list,
    ));
    let mut made = Lent::new();
    let labels = room(labels, &made.label);
    let sizes = room(sizes, &made.size);
    match instance::instance(
        tree,
        &Pattern { kind, name, size },
        record,
        &mut made.label[..labels],
        &mut made.size[..sizes],
    ) {
        Err(refusal) => {
            print!(rt; " {} 0", u32::from(refusal))?;
            print_kept(rt, &made, 0)
        }
        Ok(rows) => {
            print!(rt;
                " 0 {rows} {} {}",
                beginning(&made.label, rows),
                beginning(&made.size, rows)
            )?;
            print_kept(rt, &made, rows)
        }
    }
}
