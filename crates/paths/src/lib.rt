// The path of a context variable: the states along it are kept by depth, so that the next hole reads only the labels that are new to it.
// What is kept is one path, that of the context that was last judged.
#![tactic(auto)]

ghost use Rattle.std.specs.Prelude.{◌≡◌, ◌+◌, ◌<◌, ◌≤◌, length, None};
ghost use Rattle.paths.specs.Paths.{new_place, ChildFromPre, ChildFromPost, HoldingPre, HoldingPost, RecallPre, RecallPost, AcceptedPre, AcceptedPost};

use letters::{State, Tables};
use tree::Tree;

// A place of the path: its row, the state before the row's label is read, and the child from which on the next row is looked for.
#[derive(Clone, Copy)]
struct Place {
    row: usize,
    state: State,
    child: usize,
}

impl Place {
    // The row is reached in a state, and none of its children is looked at yet.
    fn new(row: usize, state: State) -> Place
        requires { row < 4294967296 }
        ensures { result ≡ new_place row state.next state.end }
    {
        Place {
            row,
            state,
            child: row + 1,
        }
    }
}

// The path of a choice from the row where it starts on, down to its last place; of no choice where none is remembered.
#[derive(Drop)]
pub struct Path {
    choice: Option<usize>,
    start: usize,
    depth: usize,
    places: [Place; 64],
}

impl Path {
    // None is remembered.
    pub fn new() -> Path
        ensures { (result.choice ≡ None) × (length result.places ≡ 64) }
    {
        let none = Place {
            row: 0,
            state: State {
                next: 0,
                end: false,
            },
            child: 0,
        };
        Path {
            choice: None,
            start: 0,
            depth: 0,
            places: [none; 64],
        }
    }
}

// The child of the term at the row that holds the row b, looked for from a child on, or from the first where b is before that.
fn child(size: &[u32], row: usize, from: usize, b: usize) -> usize
    requires { ChildFromPre size.now row from b }
    ensures { ChildFromPost size.now row b result }
{
    let first = if b < from { row + 1 } else { from };
    tree::holder(size, first, b)
}

// The last place whose row's term has the row b.
fn holding(size: &[u32], path: &Path, m: usize, b: usize) -> usize
    requires { HoldingPre size.now path.now m }
    ensures { HoldingPost size.now path.now m b result }
{
    for i in (1..=m).rev() {
        let row = path.places[i].row;
        if row <= b {
            if b < tree::next(size, row) {
                return i;
            }
        }
    }
    0
}

// The place from which on the path to the row b is read: one of the path that is remembered, or the first of a new one.
fn recall(
    size: &[u32],
    tables: &Tables,
    root: usize,
    choice: usize,
    a: usize,
    b: usize,
    path: &mut Path,
) -> usize
    requires { RecallPre size.now tables.now root choice a b path.old }
    ensures { RecallPost size.now tables.now root choice a b path.old result path.new }
{
    if path.choice == Some(choice) {
        if path.start == a {
            let m = path.depth;
            return holding(size, path, m, b);
        }
    }
    let state = letters::begin(tables, root);
    path.choice = Some(choice);
    path.start = a;
    path.places[0] = Place::new(a, state);
    0
}

// Whether the labels on the path from the row a down to the row b, that of b left out, are a word of the expression at the row root,
// for a choice.
pub fn accepted(
    tree: &Tree,
    tables: &Tables,
    root: usize,
    choice: usize,
    a: usize,
    b: usize,
    path: &mut Path,
) -> bool
    requires { AcceptedPre tree.now.label.now tree.now.size.now tables.now root choice a b path.old }
    ensures { AcceptedPost tree.now.label.now tree.now.size.now tables.now root choice a b result path.new }
{
    let mut i = recall(tree.size, tables, root, choice, a, b, path);
    loop {
        path.depth = i;
        let here = path.places[i];
        if here.row == b {
            return here.state.end;
        }
        if i == 63 {
            return constraint::after_path(tree, tables, root, a, b).end;
        }
        let u = child(tree.size, here.row, here.child, b);
        path.places[i].child = u;
        let state = letters::step(here.state.next, tables, tree.label[here.row]);
        i += 1;
        path.places[i] = Place::new(u, state);
    }
}
