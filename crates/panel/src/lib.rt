// A panel of patterns: up to 32 problems over one tree in one call, each answered as by a call of its own.
#![tactic(auto)]

ghost use Rattle.std.specs.Prelude.{◌≡◌, ◌+◌, ◌*◌, ◌<◌, ◌≤◌, ℕ, length};
ghost use Rattle.meaning.specs.Calls.{Says};
ghost use Rattle.portion.specs.Portion.{most};
ghost use Rattle.panel.specs.Parts.{sum};
ghost use Rattle.panel.specs.Panel.{told, panel_of, ListsAgree, LengthsAddUp, PanelSettled};
ghost use Rattle.panel.specs.Inside.{AllReach, WithNextPre, reach, written};

use answer::Listing;
use meaning::Refusal;
use portion::Reach;
use problem::Problem;

// What is asked: the tree and the tables of all problems, laid end to end; for each problem how long its parts of the tables are, its budget,
// and its share of the entries that are lent.
#[derive(Clone, Copy)]
pub struct Problems<'a> {
    pub tables: Problem<'a>,
    pub pattern_length: &'a [u32],
    pub expression_length: &'a [u32],
    pub constraint_length: &'a [u32],
    pub budget: &'a [u32],
    pub share: &'a [u32],
}

// The sum of lengths, which cannot wrap: they are few.
fn total(lengths: &[u32]) -> usize
    requires { length lengths.now ≤ 32 }
    ensures { (result ≡ sum lengths.now) × (result ≤ most) }
{
    lengths.iter().map(|length| *length as usize).sum()
}

impl<'a> Problems<'a> {
    // Whether the lists agree on the number of problems, and it is not over 32, with so many numbers for the answers.
    fn agree(&self, answers: usize) -> bool
        ensures { Says result (ListsAgree (panel_of self.now) answers) }
    {
        let problems = self.share.len();
        problems <= 32
            && self.pattern_length.len() == problems
            && self.expression_length.len() == problems
            && self.constraint_length.len() == problems
            && self.budget.len() == problems
            && answers == problems * 4
    }

    // How far all problems reach.
    fn whole(&self) -> Reach
        requires { (answers : ℕ) × ListsAgree (panel_of self.now) answers }
        ensures { AllReach (panel_of self.now) result }
    {
        Reach {
            rows: total(self.pattern_length),
            expressions: total(self.expression_length),
            numbers: total(self.constraint_length),
            entries: total(self.share),
        }
    }

    // Whether they reach exactly to the ends of the tables, and of so many entries.
    fn fill(&self, all: Reach, entries: usize) -> bool
        requires { AllReach (panel_of self.now) all }
        ensures { Says result (LengthsAddUp (panel_of self.now) entries) }
    {
        let pattern = self.tables.pattern;
        let table = self.tables.table;
        all.rows == pattern.kind.len()
            && all.rows == pattern.name.len()
            && all.rows == pattern.size.len()
            && all.expressions == table.kind.len()
            && all.expressions == table.name.len()
            && all.expressions == table.size.len()
            && all.numbers == self.tables.constraint.len()
            && all.entries == entries
    }

    // How far they reach with the i-th one, by how far those before it do.
    fn with_next(&self, i: usize, before: Reach) -> Reach
        requires { WithNextPre (panel_of self.now) i before }
        ensures { result ≡ reach (panel_of self.now) (i + 1) }
    {
        let rows = before.rows + self.pattern_length[i] as usize;
        let expressions = before.expressions + self.expression_length[i] as usize;
        let numbers = before.numbers + self.constraint_length[i] as usize;
        let entries = before.entries + self.share[i] as usize;
        Reach {
            rows,
            expressions,
            numbers,
            entries,
        }
    }
}

// The four numbers of an answer, from a place on.
fn put(answer: &mut [u32], at: usize, listing: Listing)
    requires { (at < length answer.old) × (at + 1 < length answer.old) × (at + 2 < length answer.old) × (at + 3 < length answer.old) }
    ensures { answer.new ≡ written answer.old at listing }
{
    answer[at] = listing.code;
    answer[at + 1] = listing.ending;
    answer[at + 2] = listing.records;
    answer[at + 3] = listing.tries;
}

// Answers every problem, or refuses all and writes nothing.
pub fn panel(asked: &Problems, out: &mut [u32], answer: &mut [u32]) -> Result<(), Refusal>
    ensures { PanelSettled (panel_of asked.now) out.old answer.old (told result) out.new answer.new }
{
    if !asked.agree(answer.len()) {
        return Err(Refusal::Panel);
    }
    let all = asked.whole();
    if !asked.fill(all, out.len()) {
        return Err(Refusal::Panel);
    }
    let tree = tree::good(&asked.tables.tree);
    let mut from = Reach {
        rows: 0,
        expressions: 0,
        numbers: 0,
        entries: 0,
    };
    for i in 0..asked.share.len() {
        let to = asked.with_next(i, from);
        let listing = portion::list(tree, &asked.tables, from, to, asked.budget[i], out);
        put(answer, i * 4, listing);
        from = to;
    }
    Ok(())
}
