// A client that knows the lister by its contract alone: whether a problem has a matcher at all.
#![tactic(auto)]

ghost use Rattle.client.specs.Solvable.{told, Settled};
ghost use Rattle.problem.specs.Problem.{lists};

use meaning::Refusal;
use meaning::endings::Ending;
use problem::Problem;

#[derive(Clone, Copy, Debug, PartialEq, Eq)]
pub enum HasMatcher {
    Yes,
    No,
    // the budget was spent before a matcher was reached
    Open,
}

// How many records a problem without a matcher has.
const NONE: usize = 0;

// Room for one record is all that the question needs.
pub fn solvable(problem: &Problem, budget: u32) -> Result<HasMatcher, Refusal>
    ensures { Settled (lists problem.now) budget (told result) }
{
    let variables = pattern::check(&problem.pattern).variables;
    let width = variables + variables;
    let mut out = [0u32; 32];
    let found = lister::list(problem, budget, &mut out[..width])?;
    if found.records != NONE {
        return Ok(HasMatcher::Yes);
    }
    match found.ending {
        Ending::Budget => Ok(HasMatcher::Open),
        Ending::All => Ok(HasMatcher::No),
        Ending::Room => Ok(HasMatcher::No),
    }
}
