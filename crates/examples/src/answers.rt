// One function for each word: it hands the line's lists to the check or the test of that name. None where there are more lists or fewer than it takes.
use expression::Table;
use meaning::Refusal;
use pattern::Pattern;
use problem::Problem;
use std::io;
use tree::Tree;

fn tree(lists: &[&[u32]]) -> Option<bool> {
    let [label, size] = lists else {
        return None;
    };
    Some(tree::good(&Tree { label, size }))
}

fn pattern(lists: &[&[u32]]) -> Option<bool> {
    let [kind, name, size] = lists else {
        return None;
    };
    Some(pattern::check(&Pattern { kind, name, size }).good)
}

fn expression(lists: &[&[u32]]) -> Option<bool> {
    let [kind, name, size] = lists else {
        return None;
    };
    Some(expression::good(&Table { kind, name, size }))
}

fn constraint(lists: &[&[u32]]) -> Option<bool> {
    let [
        kind,
        name,
        size,
        table_kind,
        table_name,
        table_size,
        constraint,
    ] = lists
    else {
        return None;
    };
    let pattern = Pattern { kind, name, size };
    let table = Table {
        kind: table_kind,
        name: table_name,
        size: table_size,
    };
    Some(constraint::good(&pattern, &table, constraint))
}

fn record(lists: &[&[u32]]) -> Option<bool> {
    let [label, size, kind, name, pattern_size, record] = lists else {
        return None;
    };
    let pattern = Pattern {
        kind,
        name,
        size: pattern_size,
    };
    Some(record::good(&Tree { label, size }, &pattern, record))
}

fn test(lists: &[&[u32]]) -> Option<Result<bool, Refusal>> {
    let [
        label,
        size,
        kind,
        name,
        pattern_size,
        table_kind,
        table_name,
        table_size,
        constraint,
        record,
    ] = lists
    else {
        return None;
    };
    let problem = Problem {
        tree: Tree { label, size },
        pattern: Pattern {
            kind,
            name,
            size: pattern_size,
        },
        table: Table {
            kind: table_kind,
            name: table_name,
            size: table_size,
        },
        constraint,
    };
    Some(test::test(&problem, record))
}

pub fn unreadable(rt: &impl Print) -> io::Result<()> {
    println!(rt; ": cannot be read")
}

fn checked(rt: &impl Print, good: Option<bool>) -> io::Result<()> {
    match good {
        Some(true) => println!(rt; ": good"),
        Some(false) => println!(rt; ": bad"),
        None => unreadable(rt),
    }
}

fn tested(rt: &impl Print, answer: Option<Result<bool, Refusal>>) -> io::Result<()> {
    match answer {
        Some(Err(refusal)) => println!(rt; ": refused {}", u32::from(refusal)),
        Some(Ok(true)) => println!(rt; ": yes"),
        Some(Ok(false)) => println!(rt; ": no"),
        None => unreadable(rt),
    }
}

// Prints the answer to a line with this word and these lists.
pub fn answer(rt: &impl Print, word: &[u8], lists: &[&[u32]]) -> io::Result<()> {
    match word {
        b"tree" => checked(rt, tree(lists)),
        b"pattern" => checked(rt, pattern(lists)),
        b"expression" => checked(rt, expression(lists)),
        b"constraint" => checked(rt, constraint(lists)),
        b"record" => checked(rt, record(lists)),
        b"test" => tested(rt, test(lists)),
        _ => unreadable(rt),
    }
}
