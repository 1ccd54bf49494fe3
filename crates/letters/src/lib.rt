#![tactic(auto)]

ghost use Rattle.std.specs.Prelude.{◌≡◌, Bool, ◌&&◌, List, [], ◌∷◌, ◌++◌, ℕ, ◌+◌, ◌<◌, ◌≤◌, length};
ghost use Rattle.std.specs.Int.Bits.{bit_or};
ghost use Rattle.expression.specs.Expression.{Expression};
ghost use Rattle.expression.specs.Rows.{GoodTable, StartsAt};
ghost use Rattle.expression.specs.Rule.{number_at};
ghost use Rattle.letters.specs.State.{StateOf, TablesOf};
ghost use Rattle.letters.specs.Tables.{first_of, null_of, cont_of, ends_of};
ghost use Rattle.letters.specs.Following.{gate, head_set, head_null, Shape, PartsAre, followed, ContsOf, Fresh, Laid, SameHeads};

use expression::Table;
use expression::kinds::{CHOICE, CONCATENATION, EMPTY, SYMBOL};

// The rows that may read the next letter, and whether the word may end here.
#[derive(Clone, Copy)]
pub struct State {
    pub next: u64,
    pub end: bool,
}

// The set x where a flag is on: a word for what both parts below say.
fn gated(on: bool, x: u64) -> u64
    ensures { result ≡ gate on x }
{
    if on { x } else { 0 }
}

// The rows of the parts of a row; a leaf stands for its own parts.
#[derive(Clone, Copy)]
struct Parts {
    left: usize,
    right: usize,
}

fn parts_of(kind: &[u32], size: &[u32], row: usize) -> Parts
    requires { (row < length kind.now) × (length size.now ≡ length kind.now) × (length kind.now ≤ 64)
        × Shape (number_at kind.now) (number_at size.now) (length kind.now) }
    ensures are { PartsAre (number_at kind.now row) row (number_at size.now (row + 1)) result.left result.right }
    ensures rows { (result.left < length kind.now) × (result.right < length kind.now) }
{
    let k = kind[row];
    if k < 2 {
        return Parts {
            left: row,
            right: row,
        };
    }
    let l = row + 1;
    if k < 4 {
        return Parts {
            left: l,
            right: l + size[l] as usize,
        };
    }
    Parts { left: l, right: l }
}

// The rows that may read first, and whether the empty word is one.
#[derive(Clone, Copy)]
struct Head {
    first: u64,
    null: bool,
}

fn head_of(kind: u32, row: usize, l: Head, r: Head) -> Head
    requires { row < 64 }
    ensures { (result.first ≡ head_set kind row l.first l.null r.first) × (result.null ≡ head_null kind l.null r.null) }
{
    match kind {
        SYMBOL => Head {
            first: 1u64 << row,
            null: false,
        },
        EMPTY => Head {
            first: 0,
            null: true,
        },
        CONCATENATION => Head {
            first: l.first | gated(l.null, r.first),
            null: l.null & r.null,
        },
        CHOICE => Head {
            first: l.first | r.first,
            null: l.null | r.null,
        },
        _ => Head {
            first: l.first,
            null: true,
        },
    }
}

// A row of the tables: its name; what may come first in it; and the state after its words.
#[derive(Clone, Copy)]
struct Row {
    name: u32,
    head: Head,
    after: State,
}

// A row before it is laid.
const UNLAID: Row = Row {
    name: 0,
    head: Head {
        first: 0,
        null: false,
    },
    after: State {
        next: 0,
        end: false,
    },
};

// The tables of an expression table: its rows, with what may come first in each and next after it.
#[derive(Drop)]
pub struct Tables {
    rows: [Row; 64],
}

// Each row's name and head, from the last row up; nothing comes after a row yet, as after a top-level expression.
fn lay(kind: &[u32], name: &[u32], size: &[u32], tables: &mut Tables)
    requires { (length name.now ≡ length kind.now) × (length size.now ≡ length kind.now) × (length kind.now ≤ 64)
        × Shape (number_at kind.now) (number_at size.now) (length kind.now) }
    ensures { Laid (number_at kind.now) (number_at name.now) (number_at size.now) (length kind.now) tables.new 0 }
{
    for row in (0..kind.len()).rev() {
        let parts = parts_of(kind, size, row);
        let head = head_of(
            kind[row],
            row,
            tables.rows[parts.left].head,
            tables.rows[parts.right].head,
        );
        tables.rows[row] = Row {
            name: name[row],
            head,
            after: State { next: 0, end: true },
        };
    }
}

// What may come after the left part of a row: `head` is that of the right part, `here` is what may come after the row.
fn follow(kind: u32, head: Head, here: State) -> State
    ensures { (result.next ≡ followed kind (bit_or head.first (gate head.null here.next)) (bit_or head.first here.next) here.next)
        × (result.end ≡ followed kind (head.null && here.end) here.end here.end) }
{
    if kind == CONCATENATION {
        return State {
            next: head.first | gated(head.null, here.next),
            end: head.null & here.end,
        };
    }
    if kind < 4 {
        return here;
    }
    State {
        next: head.first | here.next,
        end: here.end,
    }
}

// What may come after each row, from the first row down.
fn fill(kind: &[u32], size: &[u32], tables: &mut Tables)
    requires { (length size.now ≡ length kind.now) × (length kind.now ≤ 64)
        × Shape (number_at kind.now) (number_at size.now) (length kind.now) × Fresh tables.old 0 (length kind.now) }
    ensures heads { SameHeads tables.old tables.new }
    ensures conts { (name : List ℕ) (es : List Expression) → GoodTable kind.now name size.now es
        → ContsOf (first_of tables.new) (null_of tables.new) (cont_of tables.new) (ends_of tables.new) es (length kind.now) }
{
    for row in 0..kind.len() {
        let parts = parts_of(kind, size, row);
        let here = tables.rows[row].after;
        let left = follow(kind[row], tables.rows[parts.right].head, here);
        tables.rows[parts.right].after = here;
        tables.rows[parts.left].after = left;
    }
}

// The tables of a good expression table, computed once for all words.
pub fn tables_of(table: &Table) -> Tables
    requires { (es : List Expression) × GoodTable table.now.kind.now table.now.name.now table.now.size.now es }
    ensures { (es : List Expression) → GoodTable table.now.kind.now table.now.name.now table.now.size.now es → TablesOf es result }
{
    let rows = [UNLAID; 64];
    let mut tables = Tables { rows };
    lay(table.kind, table.name, table.size, &mut tables);
    fill(table.kind, table.size, &mut tables);
    tables
}

// The state before the first letter, for the expression that starts at the row `root`.
pub fn begin(tables: &Tables, root: usize) -> State
    requires { root < 64 }
    ensures { (es : List Expression) (e : Expression) → TablesOf es tables.now
        → StartsAt es e root → StateOf tables.now e [] result.next result.end }
{
    let head = tables.rows[root].head;
    State {
        next: head.first,
        end: head.null,
    }
}

// One more letter is read: the rows of the set that have its label are visited from the lowest up.
pub fn step(next: u64, tables: &Tables, label: u32) -> State
    ensures { (e : Expression) (word : List ℕ) (end : Bool) → StateOf tables.now e word next end
        → StateOf tables.now e (word ++ (label ∷ [])) result.next result.end }
{
    let mut left = next;
    let mut set: u64 = 0;
    let mut end = false;
    // One turn for each bit that is set.
    while left != 0 {
        let p = u64::trailing_zeros(left) as usize;
        let row = tables.rows[p];
        if row.name == label {
            set = set | row.after.next;
            end = end | row.after.end;
        }
        left = left - (1u64 << p);
    }
    State {
        next: set,
        end: end,
    }
}
