// What the reader answers on one line, and whether it kept to its lists and agrees with the check.
ghost use Rattle.std.specs.Prelude.{◌≤◌};

use judge::refusal::Refusal;
use lines::lists::{BEFORE, unchanged};
use std::{fmt, io};

// A little more than the most rows that are read.
const ROWS: usize = 2100;

// Lists of more rows are printed as a sum each.
const PRINTED: usize = 12;

// The four lists that the reader is lent.
#[derive(Drop)]
struct Lent {
    label: [u32; ROWS],
    size: [u32; ROWS],
    start: [u32; ROWS],
    length: [u32; ROWS],
}

impl Lent {
    fn new() -> Lent {
        Lent {
            label: [BEFORE; ROWS],
            size: [BEFORE; ROWS],
            start: [BEFORE; ROWS],
            length: [BEFORE; ROWS],
        }
    }

    // The whole lists are looked at, also what was not lent.
    fn are_unchanged(&self, from: usize) -> bool {
        unchanged(&self.label, from)
            && unchanged(&self.size, from)
            && unchanged(&self.start, from)
            && unchanged(&self.length, from)
    }
}

// How much of a list is lent, which is all of it where the line asks for more.
fn room(rooms: &[u8], number: usize) -> usize
    ensures { result ≤ 2100 }
{
    let wanted = lines::number(lines::fields::field(rooms, b' ', number));
    wanted.map_or(ROWS, |wanted| ROWS.min(wanted as usize))
}

// The check has no room limit, so that where the reader lacks room it must accept.
fn agrees(read: Result<u32, Refusal>, checked: u64) -> bool {
    let code = checked >> 32;
    let rest = checked % 4294967296;
    match read {
        Ok(rows) => code == 0 && rest == u64::from(rows),
        Err(Refusal::NoRoom) => code == 0,
        Err(refusal) => {
            code == u64::from(u32::from(refusal)) && rest == u64::from(refusal.place())
        }
    }
}

// The first numbers of a list, with a space in front of each.
#[derive(Clone, Copy)]
struct First<'a>(&'a [u32], usize);

impl fmt::Display for First<'_> {
    fn fmt<W: fmt::Write>(&self, f: &mut fmt::Formatter<W>) -> fmt::Result {
        for number in self.0.iter().take(self.1) {
            write!(f, " {number}")?;
        }
        Ok(())
    }
}

// A number below 2^32 for the first numbers of a list, in which each counts by its place: 31 times the sum of those before it, and the number.
fn sum_of(list: &[u32], rows: usize) -> u32 {
    list.iter().take(rows).fold(
        0,
        |sum: u32, number| sum.wrapping_mul(31).wrapping_add(*number),
    )
}

fn print_lists(rt: &impl Print, lists: &Lent, rows: usize) -> io::Result<()> {
    if rows <= PRINTED {
        print!(rt;
            ", label{} size{} start{} length{}",
            First(&lists.label, rows),
            First(&lists.size, rows),
            First(&lists.start, rows),
            First(&lists.length, rows)
        )
    } else {
        print!(rt;
            ", sums {} {} {} {}",
            sum_of(&lists.label, rows),
            sum_of(&lists.size, rows),
            sum_of(&lists.start, rows),
            sum_of(&lists.length, rows)
        )
    }
}

fn print_answer(
    rt: &impl Print,
    read: Result<u32, Refusal>,
    checked: u64,
    lists: &Lent,
) -> io::Result<()> {
    let rows = read.unwrap_or(0);
    match read {
        Ok(_) => print!(rt; ": code 0 place 0 rows {rows}")?,
        Err(refusal) => {
            print!(rt;
                ": code {} place {} rows 0",
                u32::from(refusal),
                refusal.place()
            )?
        }
    }
    if !agrees(read, checked) {
        print!(rt; ", check differs")?;
    }
    let rows = rows as usize;
    if read.is_ok() {
        print_lists(rt, lists, rows)?;
    }
    // In a refusal the rows are 0.
    if !lists.are_unchanged(rows) {
        print!(rt; ", lists changed")?;
    }
    println!(rt)
}

// Prints what the reader gave on the four lists, each lent up to the length that the line says.
pub fn answer(rt: &impl Print, rooms: &[u8], dictionary: &[u8], document: &[u8]) -> io::Result<()> {
    let mut lists = Lent::new();
    let read = document::read(
        dictionary,
        document,
        &mut lists.label[..room(rooms, 0)],
        &mut lists.size[..room(rooms, 1)],
        &mut lists.start[..room(rooms, 2)],
        &mut lists.length[..room(rooms, 3)],
    );
    print_answer(rt, read, document::check(dictionary, document), &lists)
}
