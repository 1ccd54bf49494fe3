// Answers the worked examples of standard input, one to a line: `WORD | TEXT | LIST / LIST / ..`. For each line it prints `TEXT: ANSWER`.
#![tactic(auto)]

mod answers;

use lines::lists::part;
use lines::read_lists;
use std::{array, io};

// So many numbers fit the lists of a line.
const ROOM: usize = 8192;

// No word takes more lists.
const LISTS: usize = 12;

// What is filled is made at once: behind a return it would be zeroed twice.
fn answer(rt: &impl Print, word: &[u8], text: &[u8]) -> io::Result<()> {
    let mut numbers = [0; ROOM];
    let mut ends = [0; LISTS];
    let Some(many) = read_lists(text, &mut numbers, &mut ends) else {
        return answers::unreadable(rt);
    };
    let lists: [&[u32]; LISTS] = array::from_fn(|list| part(&numbers, &ends, list));
    answers::answer(rt, word, &lists[..many])
}

fn answer_line(rt: &impl Print, line: &[u8]) -> io::Result<()> {
    if lines::fields::count(line, b'|') != 3 {
        rt.write_all(line)?;
        return answers::unreadable(rt);
    }
    rt.write_all(lines::section(line, 1))?;
    answer(rt, lines::section(line, 0), lines::section(line, 2))
}

fn main(rt: HostRuntime) -> io::Result<()> {
    lines::answer_each(&rt, |line| answer_line(&rt, line))
}
