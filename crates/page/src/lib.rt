// The levels of the search as they stand at a record: each choice is the record's own second number, judged and walked with as a try is.
#![tactic(auto)]

ghost use Rattle.walk.specs.Packed.{numbers_of};
ghost use Rattle.page.specs.Page.{ChoosePre, ChoosePost, ReachPre, ReachPost};

use letters::Tables;
use levels::{Level, Try, advance, attempt, enter};
use memory::Memory;
use paths::Path;
use tree::Tree;
use walk::{Halt, PatternRow};

// The level d is for the variable at which the walk stopped, and stands behind the value that the record has for it, which is to be
// tried, if it is one of the variable's.
fn choose(
    size: &[u32],
    pattern: &[PatternRow; 256],
    list: &[u32],
    at: &[usize; 256],
    levels: &mut [Level; 256],
    d: usize,
    w: walk::Stop,
) -> Option<Try>
    requires { ChoosePre size.now (numbers_of pattern.now) at.now levels.old list.now d w.place w.variable w.start }
    ensures { ChoosePost size.now (numbers_of pattern.now) at.now levels.old list.now d w.place w.variable w.start levels.new result }
{
    let p = w.place;
    let x = w.variable;
    let s = w.start;
    let v = tree::at(list, x + x + 1);
    let least = choice::least(pattern, p, s);
    let values = choice::values(size, pattern, at, p, s);
    if v < least {
        return None;
    }
    if values <= v - least {
        return None;
    }
    let left = values - (v - least) - 1;
    let u = choice::landing(size, pattern, p, s, v);
    let row = choice::further(size, pattern, p, u, left);
    enter(levels, d, w, least, values);
    advance(levels, d, row, v + 1, left);
    Some(Try {
        p,
        x,
        s,
        u,
        v,
        left,
        failed: 0,
    })
}

// Goes to the record of a matcher once, from the first walk on: a level for each of its choices, as the search left them there; how
// many levels these are, if the record is that of a matcher.
pub fn reach(
    tree: &Tree,
    pattern: &[PatternRow; 256],
    tables: &Tables,
    list: &[u32],
    record: &mut [u32; 32],
    at: &mut [usize; 256],
    levels: &mut [Level; 256],
) -> Option<usize>
    requires { ReachPre tree.now.label.now tree.now.size.now (numbers_of pattern.now) tables.now list.now «record».old at.old levels.old }
    ensures { ReachPost tree.now.label.now tree.now.size.now (numbers_of pattern.now) tables.now list.now «record».new at.new levels.new result }
{
    let mut memory = Memory::new();
    let mut path = Path::new();
    let mut depth = 0;
    let mut o = walk::begin(tree, pattern, record, at);
    loop {
        match o {
            Err(Halt::Fail) => return None,
            Ok(_) => {
                if record::equal(record, list) {
                    return Some(depth);
                }
                return None;
            }
            Err(Halt::Need(w)) => {
                let t = choose(tree.size, pattern, list, at, levels, depth, w)?;
                o = attempt(tree, pattern, tables, record, at, t, &mut memory, &mut path);
                depth += 1;
            }
        }
    }
}
