#![tactic(auto)]

ghost use Rattle.problem.specs.Problem.{lists};
ghost use Rattle.problem.specs.Answer.{told, Answered};
ghost use Rattle.problem.specs.Judgement.{AnsweredJudged};
ghost use Rattle.problem.specs.Allowing.{AllowedPre, AllowedPost};

use expression::Table;
use letters::Tables;
use meaning::Refusal;
use pattern::{Pattern, Variables};
use tree::Tree;

// The nine lists of a problem as they are lent: a tree, a pattern, an expression table, and two numbers for each variable.
#[derive(Clone, Copy)]
pub struct Problem<'a> {
    pub tree: Tree<'a>,
    pub pattern: Pattern<'a>,
    pub table: Table<'a>,
    pub constraint: &'a [u32],
}

// The pattern's variables, or the first of the refusals 11 to 14 and 19 that applies, in this order, of a tree that has been judged: where
// many problems are asked of one tree, it is judged once.
pub fn check_judged(
    tree: bool,
    pattern: &Pattern,
    table: &Table,
    constraint: &[u32],
) -> Result<Variables, Refusal>
    ensures { AnsweredJudged tree pattern.now table.now constraint.now (told result) }
{
    if !tree {
        return Err(Refusal::Tree);
    }
    let checked = pattern::check(pattern);
    if !checked.good {
        return Err(Refusal::Pattern);
    }
    if !expression::good(table) {
        return Err(Refusal::Expressions);
    }
    let count = checked.variables;
    if !constraint::given(count, &checked.kinds, table.size, constraint) {
        return Err(Refusal::Constraints);
    }
    if !constraint::all_named(count, table.size, constraint) {
        return Err(Refusal::Forgotten);
    }
    Ok(Variables {
        count,
        kinds: checked.kinds,
    })
}

// The same, of any tree.
pub fn check(problem: &Problem) -> Result<Variables, Refusal>
    ensures { Answered (lists problem.now) (told result) }
{
    check_judged(
        tree::good(&problem.tree),
        &problem.pattern,
        &problem.table,
        problem.constraint,
    )
}

// Whether the variable x may stand for the value that the numbers a and b mean: what its constraint says.
pub fn allowed(
    tree: &Tree,
    tables: &Tables,
    constraint: &[u32],
    kinds: &[u32; 16],
    x: usize,
    a: usize,
    b: usize,
) -> bool
    requires { AllowedPre tree.now.label.now tree.now.size.now tables.now constraint.now kinds.now x a b }
    ensures { AllowedPost tree.now.label.now tree.now.size.now tables.now constraint.now kinds.now x a b result }
{
    let start = constraint[x + x];
    let flag = constraint[x + x + 1];
    constraint::obeys(tree, tables, start, flag, kinds[x], a, b)
}
