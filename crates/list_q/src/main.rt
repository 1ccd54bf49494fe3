// Reads a document from standard input and lists Q on it: context 0 over f(sequence 1), with the dictionary g, f, h, a, b.
#![tactic(auto)]

use expression::Table;
use pattern::Pattern;
use problem::Problem;
use std::io;
use std::io::Read;
use tree::Tree;

// The most rows that a document has.
const ROWS: usize = 2048;

fn list_q(rt: &impl Print, tree: Tree<'_>) -> io::Result<()> {
    let problem = Problem {
        tree,
        pattern: Pattern {
            kind: &[4, 0, 2],
            // f is an element of number 1: label 2.
            name: &[0, 2, 1],
            size: &[3, 2, 1],
        },
        table: Table {
            kind: &[],
            name: &[],
            size: &[],
        },
        constraint: &[0; 4],
    };
    // Room for 64 records. Q has two variables, so a record is four numbers.
    let mut out = [[0; 4]; 64];
    match lister::list(&problem, 1000, out.as_flattened_mut()) {
        Err(refusal) => println!(rt; "{} 0 0 0", u32::from(refusal)),
        Ok(found) => {
            for [start, hole, first, count] in out.iter().take(found.records) {
                println!(rt; "{start} {hole} {first} {count}")?;
            }
            let ending = u32::from(found.ending);
            println!(rt; "0 {ending} {} {}", found.records, found.tries)
        }
    }
}

fn answer(rt: &impl Print, document: &[u8]) -> io::Result<()> {
    let mut label = [0; ROWS];
    let mut size = [0; ROWS];
    let mut start = [0; ROWS];
    let mut length = [0; ROWS];
    match document::read(
        b"g\nf\nh\na\nb\n",
        document,
        &mut label,
        &mut size,
        &mut start,
        &mut length,
    ) {
        Err(refusal) => println!(rt; "refused {} {}", u32::from(refusal), refusal.place()),
        Ok(rows) => {
            let rows = rows as usize;
            let tree = Tree {
                label: &label[..rows],
                size: &size[..rows],
            };
            list_q(rt, tree)
        }
    }
}

// Reads once and drops what came. Is there more?
fn skip_some(input: &mut impl Read) -> io::Result<bool> {
    let mut dropped = [0u8; 65536];
    Ok(0 < input.read(&mut dropped)?)
}

// Reads the rest, so that whoever writes it is not cut off. A proved loop has to end, so it counts to a number that no
// run uses up.
fn skip_rest(input: &mut impl Read) -> io::Result<()> {
    for _ in 0..u64::MAX {
        if !skip_some(input)? {
            break;
        }
    }
    Ok(())
}

fn main(rt: HostRuntime) -> io::Result<()> {
    let mut input = rt.reader();
    let mut document = Vec::new(rt.alloc());
    // One byte more than a document may have, which is enough to refuse it.
    let bytes = input.by_ref().take(32769).read_to_end(&mut document)?;
    answer(&rt, &document)?;
    if bytes == 32769 {
        skip_rest(&mut input)?;
    }
    Ok(())
}
