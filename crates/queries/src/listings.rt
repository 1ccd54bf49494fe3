// A problem on a tree: what the lister answers, and the instance of each record.
use expression::Table;
use lines::lists::{BEFORE, part, unchanged};
use lines::read_lists;
use makings::parts::{only, room};
use makings::printing::{Bracketed, unreadable};
use pattern::Pattern;
use problem::Problem;
use std::{array, io};
use tree::Tree;

// So many numbers fit the lists of a problem.
const NUMBERS: usize = 2048;

// The longest list that is lent for the records.
const RECORDS: usize = 4096;

// Prints the records, each with its instance. Where a problem is not refused, the constraint list is as long as a record.
fn print_records(
    rt: &impl Print,
    problem: &Problem<'_>,
    out: &[u32],
    records: usize,
) -> io::Result<()> {
    let mut rest = out;
    for _ in 0..records {
        let Some((record, behind)) = rest.split_at_checked(problem.constraint.len()) else {
            return Ok(());
        };
        print!(rt; " {}", Bracketed(record))?;
        makings::of_record(rt, &problem.tree, &problem.pattern, record)?;
        rest = behind;
    }
    if !unchanged(rest, 0) {
        print!(rt; ", list changed")?;
    }
    Ok(())
}

fn list_problem(
    rt: &impl Print,
    problem: &Problem<'_>,
    budget: &[u32],
    wanted: &[u32],
) -> io::Result<()> {
    let mut out = [BEFORE; RECORDS];
    let lent = room(wanted, &out);
    match lister::list(problem, only(budget).unwrap_or(0), &mut out[..lent]) {
        Ok(found) => {
            let ending = u32::from(found.ending);
            print!(rt; " 0 {ending} {} {}", found.records, found.tries)?;
            print_records(rt, problem, &out, found.records)
        }
        Err(refusal) => {
            print!(rt; " {} 0 0 0", u32::from(refusal))?;
            print_records(rt, problem, &out, 0)
        }
    }
}

pub fn list(rt: &impl Print, tree: Tree<'_>, problem: &[u8]) -> io::Result<()> {
    let mut numbers = [0; NUMBERS];
    let mut ends = [0; 9];
    if read_lists(problem, &mut numbers, &mut ends) != Some(9) {
        return unreadable(rt);
    }
    let [
        kind,
        name,
        size,
        table_kind,
        table_name,
        table_size,
        constraint,
        budget,
        wanted,
    ]: [&[u32]; 9] = array::from_fn(|list| part(&numbers, &ends, list));
    let pattern = Pattern { kind, name, size };
    let table = Table {
        kind: table_kind,
        name: table_name,
        size: table_size,
    };
    list_problem(
        rt,
        &Problem {
            tree,
            pattern,
            table,
            constraint,
        },
        budget,
        wanted,
    )
}
