// One problem of many whose tables are laid end to end: a portion of each table, answered as the lister answers it.
#![tactic(auto)]

ghost use Rattle.problem.specs.Problem.{lists};
ghost use Rattle.portion.specs.Portion.{PortionPre, PortionPost};

use answer::Listing;
use expression::Table;
use pattern::Pattern;
use problem::Problem;

// How far some of the problems reach in the tables of all: rows of patterns, rows of expressions, numbers of constraints, entries of out.
#[derive(Clone, Copy)]
pub struct Reach {
    pub rows: usize,
    pub expressions: usize,
    pub numbers: usize,
    pub entries: usize,
}

// Lists the matchers of the problem whose rows and numbers reach from one place to another in the tables of many, of a tree that has been
// judged, into the entries of out that reach so too.
pub fn list(
    tree: bool,
    tables: &Problem,
    from: Reach,
    to: Reach,
    budget: u32,
    out: &mut [u32],
) -> Listing
    requires { PortionPre tree (lists tables.now) from to out.old }
    ensures { PortionPost (lists tables.now) from to budget out.old result out.new }
{
    let pattern = tables.pattern;
    let table = tables.table;
    let problem = Problem {
        tree: tables.tree,
        pattern: Pattern {
            kind: &pattern.kind[from.rows..to.rows],
            name: &pattern.name[from.rows..to.rows],
            size: &pattern.size[from.rows..to.rows],
        },
        table: Table {
            kind: &table.kind[from.expressions..to.expressions],
            name: &table.name[from.expressions..to.expressions],
            size: &table.size[from.expressions..to.expressions],
        },
        constraint: &tables.constraint[from.numbers..to.numbers],
    };
    answer::of_lister(lister::list_judged(
        tree,
        &problem,
        budget,
        &mut out[from.entries..to.entries],
    ))
}
