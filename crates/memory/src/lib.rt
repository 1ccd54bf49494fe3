// What has been read of each choice's sequence, so that a choice that grows by one term reads one more letter; and a context's path
// goes on from the last one's.
#![tactic(auto)]

ghost use Rattle.std.specs.Prelude.{◌≡◌, ◌<◌, ◌-◌, length, replicate, None};
ghost use Rattle.walk.specs.Packed.{numbers_of};
ghost use Rattle.memory.specs.Memory.{kept, RecallPre, RecallPost, GrownPre, GrownPost, GrowPre, GrowPost};

use constraint::Mark;
use letters::{State, Tables};
use meaning::kinds::SEQUENCE;
use paths::Path;
use tree::Tree;
use walk::PatternRow;

// What has been read of a choice's sequence: the row where the reading began, how many heads are read, the row where it stands, and
// its state.
#[derive(Clone, Copy)]
struct Kept {
    start: usize,
    count: usize,
    row: usize,
    state: State,
}

// For each choice the last reading of its sequence, if there was one.
#[derive(Drop)]
pub struct Memory {
    kept: [Option<Kept>; 256],
}

impl Memory {
    // Nothing is remembered.
    pub fn new() -> Memory
        ensures { result.kept ≡ replicate 256 None }
    {
        Memory { kept: [None; 256] }
    }
}

// A reading of the heads of a sequence, and how many are read.
#[derive(Drop)]
struct Recalled {
    mark: Mark,
    count: usize,
}

// The reading of the choice that is remembered, where it began at the row a and is not beyond b; else one that begins.
fn recall(
    memory: &Memory,
    tables: &Tables,
    root: usize,
    choice: usize,
    a: usize,
    b: usize,
) -> Recalled
    requires { RecallPre root memory.now choice }
    ensures { RecallPost tables.now root memory.now choice a b result.mark.row result.mark.state.next result.count result.mark.state.end }
{
    if let Some(kept) = memory.kept[choice] {
        if kept.start == a {
            if kept.count <= b {
                return Recalled {
                    mark: Mark {
                        row: kept.row,
                        state: kept.state,
                    },
                    count: kept.count,
                };
            }
        }
    }
    let state = letters::begin(tables, root);
    Recalled {
        mark: Mark { row: a, state },
        count: 0,
    }
}

// The reading of the choice is kept for the next value.
fn keep(memory: &mut Memory, choice: usize, mark: &Mark, a: usize, count: usize)
    requires { (choice < 256) × (length memory.old.kept ≡ 256) }
    ensures { memory.new ≡ kept memory.old choice mark.now.row a count mark.now.state.next mark.now.state.end }
{
    memory.kept[choice] = Some(Kept {
        start: a,
        count,
        row: mark.row,
        state: mark.state,
    });
}

// Whether the heads of b neighbours from the row a on are a word of the expression at the row root: read on from what is
// remembered of the choice.
fn grown(
    tree: &Tree,
    tables: &Tables,
    root: usize,
    choice: usize,
    a: usize,
    b: usize,
    memory: &mut Memory,
) -> bool
    requires { GrownPre tree.now.label.now tree.now.size.now tables.now root choice a b memory.old }
    ensures { GrownPost tree.now.label.now tree.now.size.now tables.now root choice a b memory.old result memory.new }
{
    let was = recall(memory, tables, root, choice, a, b);
    let more = b - was.count;
    let mark = constraint::read_on(tree, tables, was.mark, more);
    keep(memory, choice, &mark, a, b);
    mark.state.end
}

// The row of the expression that a constraint's first number names.
fn row_of(start: u32) -> usize
    requires { 0 < start }
    ensures { result ≡ start - 1 }
{
    let above = start as usize;
    above - 1
}

// Whether the variable at the pattern row p may stand for the value that the numbers a and b mean, as `constraint::obeys` says.
pub fn allowed(
    tree: &Tree,
    pattern: &[PatternRow; 256],
    tables: &Tables,
    p: usize,
    a: usize,
    b: usize,
    memory: &mut Memory,
    path: &mut Path,
) -> bool
    requires { GrowPre tree.now.label.now tree.now.size.now (numbers_of pattern.now) tables.now p a b memory.old path.old }
    ensures { GrowPost tree.now.label.now tree.now.size.now (numbers_of pattern.now) tables.now p a b result memory.new path.new }
{
    let choice = walk::chosen(pattern, p);
    let start = choice.start;
    if start == 0 {
        return true;
    }
    let kind = choice.kind;
    if constraint::forbidden(choice.flag, kind, a, b) {
        return false;
    }
    let root = row_of(start);
    if kind == SEQUENCE {
        return grown(tree, tables, root, p, a, b, memory);
    }
    paths::accepted(tree, tables, root, p, a, b, path)
}
