#![tactic(auto)]

ghost use Rattle.std.specs.Prelude.{◌≡◌, List};
ghost use Rattle.meaning.specs.Calls.{Says};
ghost use Rattle.meaning.specs.Pattern.{Kind};
ghost use Rattle.meaning.specs.Forest.{Context};
ghost use Rattle.tree.specs.Places.{ContextAt};
ghost use Rattle.pattern.specs.Rows.{code};
ghost use Rattle.expression.specs.Expression.{Expression};
ghost use Rattle.expression.specs.Columns.{size_rows};
ghost use Rattle.constraint.specs.Obeys.{heads, path, Constraint};
ghost use Rattle.constraint.specs.Good.{GoodConstraints, GoodConstraintList};
ghost use Rattle.pattern.specs.Known.{KindsAre};
ghost use Rattle.constraint.specs.Pair.{Pair, GivenPre, NamedPre};
ghost use Rattle.constraint.specs.Named.{AllNamed};
ghost use Rattle.constraint.specs.Reading.{HeadsPre, MorePre, ReadTo, ReadOn, PathPre, After, ObeysPre, ObeysPost, ForbiddenPost};

use expression::Table;
use letters::{State, Tables};
use meaning::kinds::{FUNCTION, INDIVIDUAL, SEQUENCE};
use pattern::Pattern;
use tree::Tree;

// Whether a variable of this kind may have these two numbers.
fn paired(kind: u32, size: &[u32], first: u32, flag: u32) -> bool
    requires { (es : List Expression) × (size.now ≡ size_rows es) }
    ensures { (es : List Expression) (k : Kind) → size.now ≡ size_rows es → kind ≡ code k → Says result ((c : Constraint) × Pair es k first flag c) }
{
    if first == 0 {
        return flag == 0;
    }
    if 1 < flag {
        return false;
    }
    if kind == INDIVIDUAL {
        return false;
    }
    if kind == FUNCTION {
        return false;
    }
    let above = first as usize;
    expression::starts(size, above - 1)
}

// Code 14, where the pattern's check has answered the variables and the table is good.
pub fn given(variables: usize, kinds: &[u32; 16], size: &[u32], constraint: &[u32]) -> bool
    requires { GivenPre variables kinds.now size.now }
    ensures { (es : List Expression) (Q : List Kind) → KindsAre Q variables kinds.now → size.now ≡ size_rows es
        → Says result ((cs : List Constraint) × GoodConstraints es Q constraint.now cs) }
{
    if constraint.len() != variables + variables {
        return false;
    }
    for x in 0..variables {
        if !paired(kinds[x], size, constraint[x + x], constraint[x + x + 1]) {
            return false;
        }
    }
    true
}

// Code 14, and those before it: whether the constraint list is good, for the pattern and the expression table.
pub fn good(pattern: &Pattern, table: &Table, constraint: &[u32]) -> bool
    ensures { Says result (GoodConstraintList pattern.now.kind.now pattern.now.name.now pattern.now.size.now table.now.kind.now table.now.name.now table.now.size.now constraint.now) }
{
    let checked = pattern::check(pattern);
    if !checked.good {
        return false;
    }
    if !expression::good(table) {
        return false;
    }
    given(checked.variables, &checked.kinds, table.size, constraint)
}

// Code 19, where the list is good: whether a variable names each whole expression of the table. A mark for each number that
// may stand in the list, so that every list is gone through once.
pub fn all_named(variables: usize, size: &[u32], constraint: &[u32]) -> bool
    requires { NamedPre variables size.now constraint.now }
    ensures { (es : List Expression) → size.now ≡ size_rows es → Says result (AllNamed es constraint.now) }
{
    let mut marks = [false; 65];
    for x in 0..variables {
        marks[constraint[x + x] as usize] = true;
    }
    let mut row = 0;
    while row < size.len() {
        if !marks[row + 1] {
            return false;
        }
        row += size[row] as usize;
    }
    true
}

// A reading of heads: the row where it stands, and its state.
#[derive(Drop)]
pub struct Mark {
    pub row: usize,
    pub state: State,
}

// The reading goes on by so many heads. What has been read before is not read again: a choice that grows by one term reads one
// more letter.
pub fn read_on(tree: &Tree, tables: &Tables, from: Mark, more: usize) -> Mark
    requires { MorePre tree.now.label.now tree.now.size.now from.row more }
    ensures { ReadOn tree.now.label.now tree.now.size.now tables.now from.row from.state.next from.state.end more result.row result.state.next result.state.end }
{
    // The lists are looked up once: compiled without proof, a loop that reaches them through the tree takes an eighth longer for constrained sequences.
    let label = tree.label;
    let size = tree.size;
    let mut row = from.row;
    let mut state = from.state;
    for _ in 0..more {
        state = letters::step(state.next, tables, label[row]);
        row = tree::next(size, row);
    }
    Mark { row, state }
}

// The reading of the heads of so many neighbours from the row a on, for the expression that starts at the row root.
pub fn after_heads(tree: &Tree, tables: &Tables, root: usize, a: usize, count: usize) -> Mark
    requires { HeadsPre tree.now.label.now tree.now.size.now root a count }
    ensures { ReadTo tree.now.label.now tree.now.size.now tables.now root a count result.row result.state.next result.state.end }
{
    let begun = Mark {
        row: a,
        state: letters::begin(tables, root),
    };
    read_on(tree, tables, begun, count)
}

// The state after the labels on the path from the row a down to the row b, that of b left out.
pub fn after_path(tree: &Tree, tables: &Tables, root: usize, a: usize, b: usize) -> State
    requires { PathPre tree.now.label.now tree.now.size.now root a b }
    ensures { (c : Context) → ContextAt tree.now.label.now tree.now.size.now a b c
        → After tables.now root (path c) result.next result.end }
{
    let mut state = letters::begin(tables, root);
    let mut down = a;
    while down != b {
        state = letters::step(state.next, tables, tree.label[down]);
        down = tree::child(tree.size, down, b);
    }
    state
}

// Whether the flag forbids the value: the empty sequence, or the bare hole.
pub fn forbidden(flag: u32, kind: u32, a: usize, b: usize) -> bool
    ensures { ForbiddenPost flag kind a b result }
{
    if flag != 1 {
        return false;
    }
    if kind == SEQUENCE {
        return b == 0;
    }
    a == b
}

// Whether the value that the numbers a and b mean for a variable of this kind obeys the constraint that start and flag give it.
pub fn obeys(
    tree: &Tree,
    tables: &Tables,
    start: u32,
    flag: u32,
    kind: u32,
    a: usize,
    b: usize,
) -> bool
    requires { ObeysPre tree.now.label.now tree.now.size.now start flag kind a b }
    ensures { ObeysPost tree.now.label.now tree.now.size.now tables.now start flag kind a b result }
{
    if start == 0 {
        return true;
    }
    if forbidden(flag, kind, a, b) {
        return false;
    }
    let above = start as usize;
    let root = above - 1;
    if kind == SEQUENCE {
        return after_heads(tree, tables, root, a, b).state.end;
    }
    after_path(tree, tables, root, a, b).end
}
