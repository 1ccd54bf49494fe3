// The pattern check: whether three lists are the rows of a pattern within the limits, and the kinds of its variables.
#![tactic(auto)]

ghost use Rattle.std.specs.Prelude.{◌≡◌, ◌<◌, ◌≤◌, length};
ghost use Rattle.meaning.specs.Calls.{Says};
ghost use Rattle.pattern.specs.Answer.{PatternSettled};
ghost use Rattle.pattern.specs.Scan.{Refused, SameLengths, OneArgumentAt, SizedAt, Named, Scanned};

use meaning::kinds::{CONTEXT, FUNCTION, INDIVIDUAL, SEQUENCE, SYMBOL};

// A pattern as it is lent: the kind, the name and the size of each row, in preorder.
#[derive(Clone, Copy)]
pub struct Pattern<'a> {
    pub kind: &'a [u32],
    pub name: &'a [u32],
    pub size: &'a [u32],
}

// How many variables a good pattern has, and their kinds by their numbers, 0 for numbers that are not used.
#[derive(Drop)]
pub struct Variables {
    pub count: usize,
    pub kinds: [u32; 16],
}

// A flag with a value beside it, and no Result: that a refusal counts no variables is promised (PatternSettled, refused), and the edit
// refusal_counts breaks just that.
#[derive(Drop)]
pub struct Checked {
    pub good: bool,
    pub variables: usize,
    pub kinds: [u32; 16],
}

// What a row's name is: against the rules, or a symbol or a variable that has appeared, or the next variable.
#[derive(Drop)]
enum Naming {
    Bad,
    Known,
    New,
}

fn refused() -> Checked
    ensures { Refused result }
{
    Checked {
        good: false,
        variables: 0,
        kinds: [0u32; 16],
    }
}

// Whether the row has one argument, not a sequence variable.
#[tactic(auto, using(crate::proofs::Rules::one_sequence))]
fn one_argument(pattern: &Pattern, row: usize) -> bool
    requires row_in { row < length pattern.now.kind.now }
    requires lengths { length pattern.now.size.now ≡ length pattern.now.kind.now }
    ensures { Says result (OneArgumentAt pattern.now.kind.now pattern.now.size.now row) }
{
    let first = row + 1;
    if first == pattern.kind.len() {
        return false;
    }
    if pattern.kind[first] == SEQUENCE {
        return false;
    }
    if pattern.size[row] < 2 {
        return false;
    }
    pattern.size[row] - 1 == pattern.size[first]
}

// Whether the row's kind is one, and allows its size.
fn sized(pattern: &Pattern, row: usize) -> bool
    requires row_in { row < length pattern.now.kind.now }
    requires lengths { length pattern.now.size.now ≡ length pattern.now.kind.now }
    ensures { Says result (SizedAt pattern.now.kind.now pattern.now.size.now row) }
{
    match pattern.kind[row] {
        SYMBOL | FUNCTION => true,
        INDIVIDUAL | SEQUENCE => pattern.size[row] == 1,
        CONTEXT => one_argument(pattern, row),
        _ => false,
    }
}

// What the name is to a row of this kind, where so many variables have appeared and kinds has theirs.
#[tactic(auto, using(crate::specs::Scan::next, crate::specs::Scan::too_many))]
fn named(kinds: &[u32; 16], kind: u32, name: usize, variables: usize) -> Naming
    requires { (length kinds.now ≡ 16) × (variables ≤ 16) }
    ensures { Named kinds.now kind name variables result }
{
    if kind == SYMBOL {
        if name < 65536 {
            return Naming::Known;
        }
        return Naming::Bad;
    }
    if name < variables {
        if kinds[name] == kind {
            return Naming::Known;
        }
        return Naming::Bad;
    }
    if name == variables {
        if variables < 16 {
            return Naming::New;
        }
    }
    Naming::Bad
}

// The rows one by one: preorder is the order of first appearance.
fn scan(pattern: &Pattern) -> Checked
    requires { SameLengths pattern.now }
    ensures { Scanned pattern.now.kind.now pattern.now.name.now pattern.now.size.now result }
{
    let mut kinds = [0u32; 16];
    let mut variables = 0;
    for row in 0..pattern.kind.len() {
        if !sized(pattern, row) {
            return refused();
        }
        let kind = pattern.kind[row];
        match named(&kinds, kind, pattern.name[row] as usize, variables) {
            Naming::Bad => return refused(),
            Naming::Known => {}
            Naming::New => {
                kinds[variables] = kind;
                variables += 1;
            }
        }
    }
    Checked {
        good: true,
        variables,
        kinds,
    }
}

// Whether the lists are a good pattern; how many variables it has, and their kinds.
pub fn check(pattern: &Pattern) -> Checked
    ensures { PatternSettled pattern.now.kind.now pattern.now.name.now pattern.now.size.now result }
{
    let rows = pattern.kind.len();
    if pattern.name.len() != rows {
        return refused();
    }
    if pattern.size.len() != rows {
        return refused();
    }
    if 256 < rows {
        return refused();
    }
    if !tree::shape(pattern.size) {
        return refused();
    }
    if pattern.kind[0] == SEQUENCE {
        return refused();
    }
    scan(pattern)
}
