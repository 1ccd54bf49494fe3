// The lister of matchers: checks the problem, and lists every matcher once, in order, as far as room and budget go.
#![tactic(auto)]

ghost use Rattle.std.specs.Prelude.{◌≡◌};
ghost use Rattle.catalogue.proofs.Back.{fitting};
ghost use Rattle.lister.specs.Inside.{Checked, NoPage};
ghost use Rattle.lister.specs.Listed.{told, Settled};
ghost use Rattle.lister.specs.Page.{PageSettled};
ghost use Rattle.meaning.specs.Calls.{Says};
ghost use Rattle.problem.specs.Problem.{lists};
ghost use Rattle.record.specs.Pairs.{RecordPre};
ghost use Rattle.tree.specs.Rows.{GoodRows};

use entry::{begin, resume};
use meaning::Refusal;
use pattern::Variables;
use problem::Problem;
use search::Found;

// How many records of a width fit into a list; where they have no numbers, the only one there can be.
fn room_for(n: usize, width: usize) -> usize
    ensures { result ≡ fitting n width }
{
    if width == 0 { 1 } else { n / width }
}

// The list of a problem that has been checked: its records one after another into out, as many as room and budget allow.
fn list_checked(variables: &Variables, problem: &Problem, budget: u32, out: &mut [u32]) -> Found
    requires { Checked (lists problem.now) variables.now }
    ensures { Settled (lists problem.now) budget out.old (told (Ok result)) out.new }
{
    let tables = letters::tables_of(&problem.table);
    let mut packed = [walk::UNPACKED; 256];
    walk::pack(&problem.pattern, problem.constraint, &mut packed);
    let width = variables.count + variables.count;
    let room = room_for(out.len(), width);
    begin(&problem.tree, &packed, &tables, budget, room, width, out)
}

// The list, of a tree that has been judged: where many problems are asked of one tree, it is judged once.
pub fn list_judged(
    tree: bool,
    problem: &Problem,
    budget: u32,
    out: &mut [u32],
) -> Result<Found, Refusal>
    requires { Says tree (GoodRows problem.now.tree.label.now problem.now.tree.size.now) }
    ensures { Settled (lists problem.now) budget out.old (told result) out.new }
{
    let judged = problem::check_judged(tree, &problem.pattern, &problem.table, problem.constraint)?;
    Ok(list_checked(&judged, problem, budget, out))
}

// Lists the matchers' records one after another into out, as many as room and budget allow. The tree is not judged here and then handed
// to `list_judged`: what that takes of the stack would still be held while the matchers are listed.
pub fn list(problem: &Problem, budget: u32, out: &mut [u32]) -> Result<Found, Refusal>
    ensures { Settled (lists problem.now) budget out.old (told result) out.new }
{
    let checked = problem::check(problem)?;
    Ok(list_checked(&checked, problem, budget, out))
}

// Why no page is taken from a record: it is bad, or that of no matcher. The first is asked only here, since a matcher's is never bad.
fn no_page(size: &[u32], kinds: &[u32; 16], variables: usize, record: &[u32]) -> Refusal
    requires { RecordPre size.now kinds.now variables }
    ensures { NoPage size.now kinds.now variables «record».now result }
{
    if record::fits(size, kinds, variables, record) {
        Refusal::NoMatcher
    } else {
        Refusal::Record
    }
}

// Lists the matchers that come strictly after a record, as many as room and budget allow: the next page.
pub fn list_after(
    problem: &Problem,
    record: &[u32],
    budget: u32,
    out: &mut [u32],
) -> Result<Found, Refusal>
    ensures { PageSettled (lists problem.now) «record».now budget out.old (told result) out.new }
{
    let checked = problem::check(problem)?;
    let width = checked.count + checked.count;
    if record.len() != width {
        return Err(Refusal::Record);
    }
    let tables = letters::tables_of(&problem.table);
    let mut packed = [walk::UNPACKED; 256];
    walk::pack(&problem.pattern, problem.constraint, &mut packed);
    let room = room_for(out.len(), width);
    match resume(
        &problem.tree,
        &packed,
        &tables,
        record,
        budget,
        room,
        width,
        out,
    ) {
        None => {
            let kinds = checked.kinds;
            Err(no_page(problem.tree.size, &kinds, checked.count, record))
        }
        Some(found) => Ok(found),
    }
}
