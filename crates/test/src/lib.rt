#![tactic(auto)]

ghost use Rattle.std.specs.Prelude.{◌≡◌, ◌≤◌, length};
ghost use Rattle.meaning.specs.Calls.{Says};
ghost use Rattle.problem.specs.Problem.{lists};
ghost use Rattle.walk.specs.Packed.{numbers_of};
ghost use Rattle.test.specs.Tested.{TestSettled};
ghost use Rattle.test.specs.Followed.{FollowPre, FollowPost};
ghost use Rattle.test.specs.Inside.{WalkablePre, PlacedPost, ConstrainedPre, ObeyedPost, AllPre, AllPost};

use letters::Tables;
use meaning::Refusal;
use pattern::Variables;
use problem::Problem;
use tree::Tree;
use walk::PatternRow;

// The walk with the choices of the list: a variable that is asked for takes the second number that the list has for it.
fn follow(tree: &Tree, pattern: &[PatternRow; 256], list: &[u32], found: &mut [u32; 32]) -> bool
    requires { FollowPre tree.now.label.now tree.now.size.now (numbers_of pattern.now) list.now found.old }
    ensures { FollowPost tree.now.label.now tree.now.size.now (numbers_of pattern.now) list.now result found.new }
{
    let mut at = [0usize; 256];
    let mut o = walk::begin(tree, pattern, found, &mut at);
    loop {
        match o {
            Err(walk::Halt::Fail) => return false,
            Ok(_) => return true,
            Err(walk::Halt::Need(w)) => {
                let p = w.place;
                let x = w.variable;
                let t = w.start;
                let v = tree::at(list, x + x + 1);
                let lo = choice::least(pattern, p, t);
                if v < lo {
                    return false;
                }
                if choice::values(tree.size, pattern, &at, p, t) <= v - lo {
                    return false;
                }
                let u = choice::landing(tree.size, pattern, p, t, v);
                o = walk::take(tree, pattern, found, &mut at, p, x, t, u, v);
            }
        }
    }
}

// Whether the record is that of a substitution that turns the pattern into the tree: the walk with its choices finds it again.
fn placed(problem: &Problem, record: &[u32]) -> bool
    requires { WalkablePre (lists problem.now) «record».now }
    ensures { PlacedPost (lists problem.now) «record».now result }
{
    let mut packed = [walk::UNPACKED; 256];
    walk::pack(&problem.pattern, problem.constraint, &mut packed);
    let mut found = [0u32; 32];
    follow(&problem.tree, &packed, record, &mut found) && record::equal(&found, record)
}

// Whether every variable's numbers obey its constraint, with the tables of the expressions.
fn all_obey(problem: &Problem, tables: &Tables, variables: &Variables, record: &[u32]) -> bool
    requires { AllPre (lists problem.now) tables.now variables.now «record».now }
    ensures { AllPost (lists problem.now) tables.now variables.now «record».now result }
{
    for x in 0..variables.count {
        let a = record[x + x] as usize;
        let b = record[x + x + 1] as usize;
        if !problem::allowed(
            &problem.tree,
            tables,
            problem.constraint,
            &variables.kinds,
            x,
            a,
            b,
        ) {
            return false;
        }
    }
    true
}

// Whether every variable's numbers obey its constraint.
fn obeyed(problem: &Problem, variables: &Variables, record: &[u32]) -> bool
    requires { ConstrainedPre (lists problem.now) variables.now «record».now }
    ensures { ObeyedPost (lists problem.now) variables.now «record».now result }
{
    let tables = letters::tables_of(&problem.table);
    all_obey(problem, &tables, variables, record)
}

// Whether the record is that of a matcher.
pub fn test(problem: &Problem, record: &[u32]) -> Result<bool, Refusal>
    ensures { TestSettled (lists problem.now) «record».now result }
{
    let variables = problem::check(problem)?;
    if !record::fits(problem.tree.size, &variables.kinds, variables.count, record) {
        return Err(Refusal::Record);
    }
    Ok(placed(problem, record) && obeyed(problem, &variables, record))
}
