// Reads the worked documents of standard input, one to a line: `TEXT | ROOM | DICTIONARY | DOCUMENT`. The room is the
// lengths of the four lists. For each line it prints `TEXT: ` and what the reader answers.
#![tactic(auto)]

mod answers;
mod expand;

use expand::expand;
use lines::section;
use std::io;

// A little more than the largest document that is read.
const ROOM: usize = 33000;

fn unreadable(rt: &impl Print) -> io::Result<()> {
    println!(rt; ": cannot be read")
}

// What is filled is made at once: behind a return it would be zeroed twice.
fn answer(rt: &impl Print, line: &[u8]) -> io::Result<()> {
    let mut dictionary = [0; ROOM];
    let mut document = [0; ROOM];
    let Some(names) = expand(section(line, 2), &mut dictionary) else {
        return unreadable(rt);
    };
    let Some(bytes) = expand(section(line, 3), &mut document) else {
        return unreadable(rt);
    };
    answers::answer(
        rt,
        section(line, 1),
        &dictionary[..names],
        &document[..bytes],
    )
}

fn answer_line(rt: &impl Print, line: &[u8]) -> io::Result<()> {
    rt.write_all(section(line, 0))?;
    if lines::fields::count(line, b'|') != 4 {
        return unreadable(rt);
    }
    answer(rt, line)
}

fn main(rt: HostRuntime) -> io::Result<()> {
    lines::answer_each(&rt, |line| answer_line(&rt, line))
}
