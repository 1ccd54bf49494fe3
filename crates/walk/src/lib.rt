// The deterministic walk of a pattern over a tree, up to the first variable that has to be chosen; and how it goes on from there.
#![tactic(auto)]

ghost use Rattle.std.specs.Prelude.{◌≡◌, ◌+◌, ◌*◌, ◌<◌, length, get_or};
ghost use Rattle.walk.specs.Packed.{numbers_of, Packed, Bounds, PackPre, HolderPre, HolderPost};
ghost use Rattle.walk.specs.Above.{Came};
ghost use Rattle.walk.specs.Cycle.{TermPre, TermPost, ListPre, ListPost};
ghost use Rattle.walk.specs.Onward.{UpPre, UpPost, ResumePre, ResumePost, BeginPre, BeginPost};
ghost use Rattle.walk.specs.Taken.{TakePre, TakePost};

use meaning::kinds::{CONTEXT, INDIVIDUAL, SEQUENCE};
use pattern::Pattern;
use tree::Tree;
use variable::Step;

// Where a walk stops: the row of the pattern with a variable that has to be chosen, the variable, and the row of the tree where it starts.
#[derive(Drop)]
pub struct Stop {
    pub place: usize,
    pub variable: usize,
    pub start: usize,
}

// What keeps a walk from its end, at which it says how many variables are bound: no match, or a variable that has to be chosen.
#[derive(Drop)]
pub enum Halt {
    Fail,
    Need(Stop),
}

// What the walk needs of a row of the pattern: its kind, name and size, the row that holds it, and its variable's constraint: where its
// expression starts, plus one, and the flag.
#[derive(Clone, Copy)]
pub struct PatternRow {
    pub kind: u32,
    pub name: u32,
    pub size: u32,
    pub holder: u32,
    pub start: u32,
    pub flag: u32,
}

// A row before it is packed.
pub const UNPACKED: PatternRow = PatternRow {
    kind: 0,
    name: 0,
    size: 0,
    holder: 0,
    start: 0,
    flag: 0,
};

// The entry i of a list, 0 where there is none.
fn entry(list: &[u32], i: usize) -> u32
    ensures { result ≡ get_or list.now i 0 }
{
    list.get(i).copied().unwrap_or(0)
}

// The nearest row before a row whose term has it, where the rows before have theirs; the root's is itself.
fn holder_of(size: &[u32], packed: &[PatternRow], row: usize) -> usize
    requires { HolderPre size.now (numbers_of packed.now) row }
    ensures { HolderPost size.now row result }
{
    if row == 0 {
        return 0;
    }
    let mut h = row - 1;
    while tree::next(size, h) <= row {
        h = packed[h].holder as usize;
    }
    h
}

// The pattern's lists in one, row by row, with each row's holder and constraint: a call with few slices costs less.
pub fn pack(pattern: &Pattern, constraint: &[u32], packed: &mut [PatternRow])
    requires { PackPre pattern.now.kind.now pattern.now.name.now pattern.now.size.now (numbers_of packed.old) }
    ensures { Packed pattern.now.kind.now pattern.now.name.now pattern.now.size.now (numbers_of packed.new)
        × Bounds pattern.now.kind.now pattern.now.name.now constraint.now (numbers_of packed.new) }
{
    for row in 0..pattern.kind.len() {
        let holder = holder_of(pattern.size, packed, row) as u32;
        let x = tree::at(pattern.name, row);
        packed[row] = PatternRow {
            kind: pattern.kind[row],
            name: pattern.name[row],
            size: pattern.size[row],
            holder,
            start: entry(constraint, x + x),
            flag: entry(constraint, x + x + 1),
        };
    }
}

// A pattern row's kind.
pub fn kind(pattern: &[PatternRow; 256], p: usize) -> u32
    requires { 6 * p + 5 < length (numbers_of pattern.now) }
    ensures { result ≡ get_or (numbers_of pattern.now) (6 * p) 0 }
{
    pattern[p].kind
}

// A pattern row's name.
pub fn name(pattern: &[PatternRow; 256], p: usize) -> usize
    requires { 6 * p + 5 < length (numbers_of pattern.now) }
    ensures { result ≡ get_or (numbers_of pattern.now) (6 * p + 1) 0 }
{
    pattern[p].name as usize
}

// The row after the pattern term at the row p.
pub fn next(pattern: &[PatternRow; 256], p: usize) -> usize
    requires { 6 * p + 5 < length (numbers_of pattern.now) }
    ensures { result ≡ p + get_or (numbers_of pattern.now) (6 * p + 2) 0 }
{
    p + pattern[p].size as usize
}

// A choice: the kind of a pattern row's variable, and its constraint: where its expression starts, plus one, and the flag.
#[derive(Drop)]
pub struct Choice {
    pub kind: u32,
    pub start: u32,
    pub flag: u32,
}

pub fn chosen(pattern: &[PatternRow; 256], p: usize) -> Choice
    requires { p < 256 }
    ensures { (result.kind ≡ get_or (numbers_of pattern.now) (6 * p) 0) × (result.start ≡ get_or (numbers_of pattern.now) (6 * p + 4) 0)
        × (result.flag ≡ get_or (numbers_of pattern.now) (6 * p + 5) 0) }
{
    let row = pattern[p];
    Choice {
        kind: row.kind,
        start: row.start,
        flag: row.flag,
    }
}

// The row of the pattern that holds the pattern row p.
pub fn holder(pattern: &[PatternRow; 256], p: usize) -> usize
    requires { 6 * p + 5 < length (numbers_of pattern.now) }
    ensures { result ≡ get_or (numbers_of pattern.now) (6 * p + 3) 0 }
{
    pattern[p].holder as usize
}

// The walk comes to the pattern row p at the row t of the tree.
fn come(at: &mut [usize; 256], p: usize, t: usize)
    requires { p < 256 }
    ensures { Came at.old p t at.new }
{
    at[p] = t;
}

// The row of the tree at which the walk came to the pattern row p.
pub fn row(at: &[usize; 256], p: usize) -> usize
    requires { p < 256 }
    ensures { result ≡ get_or at.now p 0 }
{
    at[p]
}

// The pattern term at row p against the term at row t, where n variables are bound.
#[cycle(args_term)]
fn term(
    tree: &Tree,
    pattern: &[PatternRow; 256],
    record: &mut [u32; 32],
    at: &mut [usize; 256],
    p: usize,
    t: usize,
    n: usize,
) -> Result<usize, Halt>
    requires { TermPre tree.now.label.now tree.now.size.now (numbers_of pattern.now) «record».old at.old p t n }
    ensures { TermPost tree.now.label.now tree.now.size.now (numbers_of pattern.now) «record».old at.old p t n result «record».new at.new }
{
    come(at, p, t);
    let k = kind(pattern, p);
    let x = name(pattern, p);
    if k == INDIVIDUAL {
        return variable::individual(tree, record, x, t, n).ok_or(Halt::Fail);
    }
    if k == CONTEXT {
        return match variable::context(tree, record, x, t, n) {
            Step::Fail => Err(Halt::Fail),
            Step::Need => Err(Halt::Need(Stop {
                place: p,
                variable: x,
                start: t,
            })),
            Step::Go(u) => term(tree, pattern, record, at, p + 1, u, n),
        };
    }
    let m = variable::head(tree.label, record, k, x, t, n).ok_or(Halt::Fail)?;
    args(
        tree,
        pattern,
        record,
        at,
        p + 1,
        next(pattern, p),
        t + 1,
        tree::next(tree.size, t),
        m,
    )
}

// The pattern's arguments from row p up to pe against the terms from row t up to te, where n variables are bound. A loop, so that the recursion is no deeper than the pattern.
#[cycle(args_term)]
fn args(
    tree: &Tree,
    pattern: &[PatternRow; 256],
    record: &mut [u32; 32],
    at: &mut [usize; 256],
    p: usize,
    pe: usize,
    t: usize,
    te: usize,
    n: usize,
) -> Result<usize, Halt>
    requires { ListPre tree.now.label.now tree.now.size.now (numbers_of pattern.now) «record».old at.old p pe t te n }
    ensures { ListPost tree.now.label.now tree.now.size.now (numbers_of pattern.now) «record».old at.old p pe t te n result «record».new at.new }
{
    let mut q = p;
    let mut u = t;
    let mut m = n;
    while q != pe {
        if kind(pattern, q) == SEQUENCE {
            let x = name(pattern, q);
            match variable::sequence(tree, record, x, u, te, m) {
                Step::Fail => return Err(Halt::Fail),
                Step::Need => {
                    come(at, q, u);
                    return Err(Halt::Need(Stop {
                        place: q,
                        variable: x,
                        start: u,
                    }));
                }
                Step::Go(v) => {
                    q += 1;
                    u = v;
                }
            }
        } else {
            if u == te {
                return Err(Halt::Fail);
            }
            m = term(tree, pattern, record, at, q, u, m)?;
            q = next(pattern, q);
            u = tree::next(tree.size, u);
        }
    }
    if u == te {
        return Ok(m);
    }
    Err(Halt::Fail)
}

// What is left of the walk behind the pattern term at row p: the rest of the list that it stands in, then of the list that its holder
// stands in, and so on up to the root. A context holds one term, so that nothing is left of its list.
fn up(
    tree: &Tree,
    pattern: &[PatternRow; 256],
    record: &mut [u32; 32],
    at: &mut [usize; 256],
    p: usize,
    n: usize,
) -> Result<usize, Halt>
    requires { UpPre tree.now.label.now tree.now.size.now (numbers_of pattern.now) «record».old at.old p n }
    ensures { UpPost tree.now.label.now tree.now.size.now (numbers_of pattern.now) «record».old at.old p n result «record».new at.new }
{
    let mut q = p;
    let mut m = n;
    while q != 0 {
        let h = holder(pattern, q);
        if kind(pattern, h) == CONTEXT {
            q = h;
        } else {
            let t = row(at, q);
            let g = row(at, h);
            m = args(
                tree,
                pattern,
                record,
                at,
                next(pattern, q),
                next(pattern, h),
                tree::next(tree.size, t),
                tree::next(tree.size, g),
                m,
            )?;
            q = h;
        }
    }
    Ok(m)
}

// The walk goes on from the variable at the pattern row p, the last of n that are bound: u is the row behind a sequence's terms,
// or the row of a context's hole.
pub fn resume(
    tree: &Tree,
    pattern: &[PatternRow; 256],
    record: &mut [u32; 32],
    at: &mut [usize; 256],
    p: usize,
    u: usize,
    n: usize,
) -> Result<usize, Halt>
    requires { ResumePre tree.now.label.now tree.now.size.now (numbers_of pattern.now) «record».old at.old p u n }
    ensures { ResumePost tree.now.label.now tree.now.size.now (numbers_of pattern.now) «record».old at.old p u n result «record».new at.new }
{
    if kind(pattern, p) == SEQUENCE {
        let h = holder(pattern, p);
        let g = row(at, h);
        let m = args(
            tree,
            pattern,
            record,
            at,
            p + 1,
            next(pattern, h),
            u,
            tree::next(tree.size, g),
            n,
        )?;
        return up(tree, pattern, record, at, h, m);
    }
    let m = term(tree, pattern, record, at, p + 1, u, n)?;
    up(tree, pattern, record, at, p, m)
}

// The variable x at the pattern row p, which starts at the row s, takes the value v, and the walk goes on at the row u.
pub fn take(
    tree: &Tree,
    pattern: &[PatternRow; 256],
    record: &mut [u32; 32],
    at: &mut [usize; 256],
    p: usize,
    x: usize,
    s: usize,
    u: usize,
    v: usize,
) -> Result<usize, Halt>
    requires { TakePre tree.now.label.now tree.now.size.now (numbers_of pattern.now) «record».old at.old p x s u v }
    ensures { TakePost tree.now.label.now tree.now.size.now (numbers_of pattern.now) «record».old at.old p x s u v result «record».new at.new }
{
    variable::put(record, x, s, v);
    resume(tree, pattern, record, at, p, u, x + 1)
}

// The walk from the root, before any choice.
pub fn begin(
    tree: &Tree,
    pattern: &[PatternRow; 256],
    record: &mut [u32; 32],
    at: &mut [usize; 256],
) -> Result<usize, Halt>
    requires { BeginPre tree.now.label.now tree.now.size.now (numbers_of pattern.now) «record».old at.old }
    ensures { BeginPost tree.now.label.now tree.now.size.now (numbers_of pattern.now) «record».old at.old result «record».new at.new }
{
    term(tree, pattern, record, at, 0, 0, 0)
}
