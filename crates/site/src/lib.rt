// What the site's server, written in C, calls: thin exports over the proved functions. `include/khargovsun.h` declares them in C.
#![tactic(auto)]

ghost use Rattle.document.specs.Reading.{DocumentChecked, Read};
ghost use Rattle.dictionary.specs.Spelling.{PartAnswered};
ghost use Rattle.instance.specs.Instance.{lists};
ghost use Rattle.answer.specs.Answers.{Lists, ListsAfter, Tests, Makes};
ghost use Rattle.panel.specs.Panel.{PanelSettled};

use answer::{Listing, Making, Part, Reading, Testing};
use expression::Table;
use panel::Problems;
use pattern::Pattern;
use problem::Problem;
use tree::Tree;

#[unsafe(no_mangle)]
pub extern "C" fn khargovsun_check(dictionary: &[u8], document: &[u8]) -> u64
    ensures { DocumentChecked dictionary.now document.now result }
{
    document::check(dictionary, document)
}

#[unsafe(no_mangle)]
pub extern "C" fn khargovsun_read(
    dictionary: &[u8],
    document: &[u8],
    label: &mut [u32],
    size: &mut [u32],
    start: &mut [u32],
    length: &mut [u32],
) -> Reading
    ensures { Read dictionary.now document.now label.old size.old start.old length.old label.new size.new start.new length.new result.code result.place result.rows }
{
    let read = document::read(dictionary, document, label, size, start, length);
    answer::of_reader(read)
}

#[unsafe(no_mangle)]
pub extern "C" fn khargovsun_list(
    label: &[u32],
    size: &[u32],
    kind: &[u32],
    name: &[u32],
    pattern_size: &[u32],
    expression_kind: &[u32],
    expression_name: &[u32],
    expression_size: &[u32],
    constraint: &[u32],
    budget: u32,
    out: &mut [u32],
) -> Listing
    ensures { Lists (record {
      label = label.entry.now;
      size = size.now;
      kind = kind.now;
      name = name.now;
      pattern_size = pattern_size.now;
      expression_kind = expression_kind.now;
      expression_name = expression_name.now;
      expression_size = expression_size.now;
      constraint = constraint.now;
    }) budget out.old result.code result.ending result.records result.tries out.new }
{
    let problem = Problem {
        tree: Tree { label, size },
        pattern: Pattern {
            kind,
            name,
            size: pattern_size,
        },
        table: Table {
            kind: expression_kind,
            name: expression_name,
            size: expression_size,
        },
        constraint,
    };
    let listed = lister::list(&problem, budget, out);
    answer::of_lister(listed)
}

#[unsafe(no_mangle)]
pub extern "C" fn khargovsun_list_after(
    label: &[u32],
    size: &[u32],
    kind: &[u32],
    name: &[u32],
    pattern_size: &[u32],
    expression_kind: &[u32],
    expression_name: &[u32],
    expression_size: &[u32],
    constraint: &[u32],
    record: &[u32],
    budget: u32,
    page: &mut [u32],
) -> Listing
    ensures { ListsAfter (record {
      label = label.entry.now;
      size = size.now;
      kind = kind.now;
      name = name.now;
      pattern_size = pattern_size.now;
      expression_kind = expression_kind.now;
      expression_name = expression_name.now;
      expression_size = expression_size.now;
      constraint = constraint.now;
    }) «record».now budget page.old result.code result.ending result.records result.tries page.new }
{
    let problem = Problem {
        tree: Tree { label, size },
        pattern: Pattern {
            kind,
            name,
            size: pattern_size,
        },
        table: Table {
            kind: expression_kind,
            name: expression_name,
            size: expression_size,
        },
        constraint,
    };
    let later = lister::list_after(&problem, record, budget, page);
    answer::of_lister(later)
}

#[unsafe(no_mangle)]
pub extern "C" fn khargovsun_panel(
    label: &[u32],
    size: &[u32],
    kind: &[u32],
    name: &[u32],
    pattern_size: &[u32],
    expression_kind: &[u32],
    expression_name: &[u32],
    expression_size: &[u32],
    constraint: &[u32],
    pattern_length: &[u32],
    expression_length: &[u32],
    constraint_length: &[u32],
    budget: &[u32],
    share: &[u32],
    records: &mut [u32],
    answer: &mut [u32],
) -> u32
    ensures { PanelSettled (record {
      label = label.entry.now;
      size = size.now;
      kind = kind.now;
      name = name.now;
      pattern_size = pattern_size.now;
      expression_kind = expression_kind.now;
      expression_name = expression_name.now;
      expression_size = expression_size.now;
      constraint = constraint.now;
      pattern_length = pattern_length.now;
      expression_length = expression_length.now;
      constraint_length = constraint_length.now;
      budget = budget.now;
      share = share.now;
    }) records.old answer.old result records.new answer.new }
{
    let tables = Problem {
        tree: Tree { label, size },
        pattern: Pattern {
            kind,
            name,
            size: pattern_size,
        },
        table: Table {
            kind: expression_kind,
            name: expression_name,
            size: expression_size,
        },
        constraint,
    };
    let asked = Problems {
        tables,
        pattern_length,
        expression_length,
        constraint_length,
        budget,
        share,
    };
    match panel::panel(&asked, records, answer) {
        Ok(()) => 0,
        Err(refusal) => u32::from(refusal),
    }
}

#[unsafe(no_mangle)]
pub extern "C" fn khargovsun_test(
    label: &[u32],
    size: &[u32],
    kind: &[u32],
    name: &[u32],
    pattern_size: &[u32],
    expression_kind: &[u32],
    expression_name: &[u32],
    expression_size: &[u32],
    constraint: &[u32],
    record: &[u32],
) -> Testing
    ensures { Tests (record {
      label = label.entry.now;
      size = size.now;
      kind = kind.now;
      name = name.now;
      pattern_size = pattern_size.now;
      expression_kind = expression_kind.now;
      expression_name = expression_name.now;
      expression_size = expression_size.now;
      constraint = constraint.now;
    }) «record».now result.code result.yes }
{
    let problem = Problem {
        tree: Tree { label, size },
        pattern: Pattern {
            kind,
            name,
            size: pattern_size,
        },
        table: Table {
            kind: expression_kind,
            name: expression_name,
            size: expression_size,
        },
        constraint,
    };
    answer::of_test(test::test(&problem, record))
}

#[tactic(auto, using(answer::proofs::Counts::rows_fit))]
#[unsafe(no_mangle)]
pub extern "C" fn khargovsun_instance(
    label: &[u32],
    size: &[u32],
    kind: &[u32],
    name: &[u32],
    pattern_size: &[u32],
    record: &[u32],
    out_label: &mut [u32],
    out_size: &mut [u32],
) -> Making
    ensures { Makes (lists label.now size.now kind.now name.now pattern_size.now «record».now) out_label.old out_size.old result.code result.rows out_label.new out_size.new }
{
    let tree = Tree { label, size };
    let pattern = Pattern {
        kind,
        name,
        size: pattern_size,
    };
    answer::of_instance(instance::instance(&tree, &pattern, record, out_label, out_size))
}

#[unsafe(no_mangle)]
pub extern "C" fn khargovsun_spelling(
    dictionary: &[u8],
    document: &[u8],
    label: &[u32],
    start: &[u32],
    length: &[u32],
    row: usize,
) -> Part
    ensures { PartAnswered dictionary.now document.now label.now start.now length.now row result.source result.start result.length }
{
    let part = dictionary::spelling::part_of(dictionary, document, label, start, length, row);
    Part {
        source: u32::from(part.source),
        start: part.start,
        length: part.length,
    }
}
