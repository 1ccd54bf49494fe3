// The levels of the search: a choice each, in the order of the pattern's rows, with the values that are left; and one try.
#![tactic(auto)]

ghost use Rattle.std.specs.Prelude.{◌≡◌, ◌+◌, ◌<◌, ◌≤◌, length};
ghost use Rattle.catalogue.proofs.Back.{BackTo};
ghost use Rattle.walk.specs.Packed.{numbers_of, root_of};
ghost use Rattle.memory.specs.Memory.{Both};
ghost use Rattle.levels.specs.Columns.{lefts, Inside, Moved, Entered};
ghost use Rattle.levels.specs.Levels.{AttemptPre, AttemptPost};
ghost use Rattle.levels.specs.Steps.{NextPre, NextPost, DeeperPre, DeeperPost};

use letters::Tables;
use memory::Memory;
use paths::Path;
use tree::Tree;
use walk::{Halt, PatternRow};

// A level: the pattern row of its variable, the variable, the row where it starts, the row at which the walk goes on with the next
// value, that value, and how many are left.
#[derive(Clone, Copy)]
pub struct Level {
    pub place: usize,
    pub variable: usize,
    pub start: usize,
    pub row: usize,
    pub next: usize,
    pub left: usize,
}

// A level before it is entered.
pub const UNENTERED: Level = Level {
    place: 0,
    variable: 0,
    start: 0,
    row: 0,
    next: 0,
    left: 0,
};

// The level d goes on to its next value.
pub fn advance(levels: &mut [Level; 256], d: usize, row: usize, next: usize, left: usize)
    requires { Inside levels.old d }
    ensures { Moved levels.old d row next left levels.new }
{
    let level = &mut levels[d];
    level.row = row;
    level.next = next;
    level.left = left;
}

// The level d is for the variable that the walk stopped at, with so many values from the least on.
pub fn enter(levels: &mut [Level; 256], d: usize, w: walk::Stop, least: usize, values: usize)
    requires { Inside levels.old d }
    ensures { Entered levels.old d w.place w.variable w.start least values levels.new }
{
    levels[d] = Level {
        place: w.place,
        variable: w.variable,
        start: w.start,
        row: w.start,
        next: least,
        left: values,
    };
}

// The depth with the levels taken off that have nothing left.
pub fn back(levels: &[Level; 256], depth: usize) -> usize
    requires { (depth ≤ 256) × (length levels.now ≡ 256) }
    ensures { BackTo (lefts levels.now) depth result }
{
    for d in (1..=depth).rev() {
        if levels[d - 1].left != 0 {
            return d;
        }
    }
    0
}

// A value to be tried: the variable x at the pattern row p, which starts at the row s, takes the value v, and the walk goes on at the
// row u. Behind it values are left, and before it some were passed over that fail.
#[derive(Clone, Copy)]
pub struct Try {
    pub p: usize,
    pub x: usize,
    pub s: usize,
    pub u: usize,
    pub v: usize,
    pub left: usize,
    pub failed: u32,
}

// How many values may be passed over before one is tried: fewer than are left, and than the budget allows.
fn spare(left: usize, budget: u32, tries: u32) -> usize
    requires { (0 < left) × (tries < budget) }
    ensures { (result < left) × (tries + result < budget) }
{
    let more = budget - tries;
    let allowed = more as usize;
    if left < allowed {
        return left - 1;
    }
    allowed - 1
}

// The level d goes on to its next value that does not fail at once, as far as the budget allows.
pub fn next_try(
    tree: &Tree,
    pattern: &[PatternRow; 256],
    at: &[usize; 256],
    levels: &mut [Level; 256],
    d: usize,
    budget: u32,
    tries: u32,
) -> Try
    requires { NextPre tree.now.label.now tree.now.size.now (numbers_of pattern.now) at.now levels.old d budget tries }
    ensures { NextPost tree.now.label.now tree.now.size.now (numbers_of pattern.now) at.now levels.old d budget tries levels.new result.p result.x result.s result.u result.v result.left result.failed }
{
    let l = levels[d];
    let limit = spare(l.left, budget, tries);
    let run = choice::skip(tree, pattern, at, l.place, l.row, l.left, limit);
    let value = l.next + run.count;
    let left = l.left - run.count - 1;
    let row = choice::further(tree.size, pattern, l.place, run.row, left);
    advance(levels, d, row, value + 1, left);
    Try {
        p: l.place,
        x: l.variable,
        s: l.start,
        u: run.row,
        v: value,
        left,
        failed: run.count as u32,
    }
}

// The level d is for the variable w, at which the walk stopped that had gone on at the row u with a value of the variable at the
// pattern row q.
pub fn deeper(
    size: &[u32],
    pattern: &[PatternRow; 256],
    at: &[usize; 256],
    levels: &mut [Level; 256],
    d: usize,
    q: usize,
    u: usize,
    left: usize,
    w: walk::Stop,
)
    requires { DeeperPre size.now (numbers_of pattern.now) at.now levels.old d q u left w.place w.start }
    ensures { DeeperPost size.now (numbers_of pattern.now) at.now levels.old d q u left w.place w.variable w.start levels.new }
{
    let least = choice::least(pattern, w.place, w.start);
    let values = choice::more_values(size, pattern, at, q, u, left, w.place, w.start);
    enter(levels, d, w, least, values);
}

// One try. The constraint is judged before the walk goes on.
pub fn attempt(
    tree: &Tree,
    pattern: &[PatternRow; 256],
    tables: &Tables,
    record: &mut [u32; 32],
    at: &mut [usize; 256],
    t: Try,
    memory: &mut Memory,
    path: &mut Path,
) -> Result<usize, Halt>
    requires { AttemptPre tree.now.label.now tree.now.size.now (numbers_of pattern.now) tables.now «record».old at.old t.p t.x t.s t.u t.v
        × Both tree.now.label.now tree.now.size.now tables.now (root_of (numbers_of pattern.now)) memory.old path.old }
    ensures { AttemptPost tree.now.label.now tree.now.size.now (numbers_of pattern.now) tables.now «record».old at.old t.p t.x t.s t.u t.v result «record».new at.new
        × Both tree.now.label.now tree.now.size.now tables.now (root_of (numbers_of pattern.now)) memory.new path.new }
{
    if !memory::allowed(tree, pattern, tables, t.p, t.s, t.v, memory, path) {
        return Err(Halt::Fail);
    }
    walk::take(tree, pattern, record, at, t.p, t.x, t.s, t.u, t.v)
}
