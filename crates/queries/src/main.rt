// Answers the listing cases of standard input, one to a line; a line that begins with `#` is a remark, and an empty one is passed over.
//   rows | TEXT | PROBLEM | LABEL / SIZE
//   document | TEXT | PROBLEM | NAME NAME .. | DOCUMENT
//   instance | TEXT | KIND / NAME / SIZE / RECORD / ROOM / ROOM | LABEL / SIZE
// A PROBLEM is KIND / NAME / SIZE / KIND / NAME / SIZE / CONSTRAINT / BUDGET / ROOM: a pattern, an expression table, the constraint
// list, and how long the list for the records is. For a problem it prints `TEXT: ` with code, ending, records and tries, and then each
// record with the rows of its instance, and whether that is the tree.
#![tactic(auto)]

mod listings;
mod trees;

use lines::section;
use std::io;

fn answer(rt: &impl Print, line: &[u8]) -> io::Result<()> {
    match section(line, 0) {
        b"rows" => trees::rows(rt, section(line, 2), section(line, 3)),
        b"document" => trees::document(rt, section(line, 2), section(line, 3), section(line, 4)),
        b"instance" => trees::instance(rt, section(line, 2), section(line, 3)),
        _ => makings::printing::unreadable(rt),
    }
}

fn answer_line(rt: &impl Print, line: &[u8]) -> io::Result<()> {
    if let [] | [b'#', ..] = line {
        return Ok(());
    }
    rt.write_all(section(line, 1))?;
    print!(rt; ":")?;
    answer(rt, line)?;
    println!(rt)
}

fn main(rt: HostRuntime) -> io::Result<()> {
    lines::answer_each(&rt, |line| answer_line(&rt, line))
}
