#![tactic(auto)]

ghost use Rattle.std.specs.Prelude.{◌≡◌, ◌+◌, ◌<◌, ◌≤◌, length};
ghost use Rattle.std.proofs.Math.Seq.{paste};
ghost use Rattle.walk.specs.Packed.{numbers_of};
ghost use Rattle.levels.specs.Columns.{places, variables, starts, rows, nexts, lefts};
ghost use Rattle.search.specs.Search.{GoPre, GoPost};

use letters::Tables;
use levels::{Level, attempt, deeper, next_try};
use meaning::endings::Ending;
use memory::Memory;
use paths::Path;
use tree::Tree;
use walk::{Halt, PatternRow};

// What the search comes to: the ending, how many records were written, and the tries.
#[derive(Clone, Copy)]
pub struct Found {
    pub ending: Ending,
    pub records: usize,
    pub tries: u32,
}

pub fn ended(ending: Ending, records: usize, tries: u32) -> Found
    ensures { (result.ending ≡ ending) × (result.records ≡ records) × (result.tries ≡ tries) }
{
    Found {
        ending,
        records,
        tries,
    }
}

// The first n numbers of the record go into out, from at on. One by one: a copy of a part whose length is not known would ask whoever links
// the archive for `memmove` too.
pub fn put(out: &mut [u32], at: usize, record: &[u32; 32], n: usize)
    requires { (n ≤ 32) × (length «record».now ≡ 32) × (at + n ≤ length out.old) }
    ensures { out.new ≡ paste out.old at «record».now n }
{
    for j in 0..n {
        out[at + j] = record[j];
    }
}

// How far the search may go: the tries, the records that there is room for, and the numbers of a record.
#[derive(Drop)]
pub struct Limits {
    pub budget: u32,
    pub room: usize,
    pub width: usize,
}

// The search from levels that stand after some choices: the last level's next value is tried, and what the walk finds is noted.
pub fn go(
    tree: &Tree,
    pattern: &[PatternRow; 256],
    tables: &Tables,
    limits: Limits,
    record: &mut [u32; 32],
    at: &mut [usize; 256],
    levels: &mut [Level; 256],
    start: usize,
    out: &mut [u32],
) -> Found
    requires { GoPre tree.now.label.now tree.now.size.now (numbers_of pattern.now) tables.now limits.room limits.width «record».old at.old (places levels.old) (variables levels.old) (starts levels.old) (rows levels.old) (nexts levels.old) (lefts levels.old) start out.old
        × (length levels.old ≡ 256) × (limits.budget < 4294967296) × (limits.room < 18446744073709551616) }
    ensures { GoPost tree.now.label.now tree.now.size.now (numbers_of pattern.now) tables.now limits.budget limits.room limits.width «record».old at.old (places levels.old) (variables levels.old) (starts levels.old) (rows levels.old) (nexts levels.old) (lefts levels.old) start out.old result out.new }
{
    let budget = limits.budget;
    let room = limits.room;
    let width = limits.width;
    let mut memory = Memory::new();
    let mut path = Path::new();
    let mut depth = start;
    let mut count: usize = 0;
    let mut tries: u32 = 0;
    loop {
        depth = levels::back(levels, depth);
        if depth == 0 {
            return ended(Ending::All, count, tries);
        }
        if tries == budget {
            return ended(Ending::Budget, count, tries);
        }
        let t = next_try(tree, pattern, at, levels, depth - 1, budget, tries);
        tries = tries + t.failed + 1;
        match attempt(tree, pattern, tables, record, at, t, &mut memory, &mut path) {
            Err(Halt::Fail) => {}
            Err(Halt::Need(w)) => {
                deeper(tree.size, pattern, at, levels, depth, t.p, t.u, t.left, w);
                depth += 1;
            }
            Ok(_) => {
                if count == room {
                    return ended(Ending::Room, count, tries);
                }
                put(out, count * width, record, width);
                count += 1;
            }
        }
    }
}
