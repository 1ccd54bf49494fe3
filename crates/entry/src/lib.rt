// How the search is entered: from its first walk on, before any choice; or from the levels that stand at a record.
#![tactic(auto)]

ghost use Rattle.walk.specs.Packed.{numbers_of};
ghost use Rattle.entry.specs.Begun.{BeginPre, BeginPost};
ghost use Rattle.entry.specs.Resumed.{ResumePre, ResumePost};

use letters::Tables;
use meaning::endings::Ending;
use search::{Found, Limits};
use tree::Tree;
use walk::{Halt, PatternRow};

// The search from its first walk on, before any choice.
pub fn begin(
    tree: &Tree,
    pattern: &[PatternRow; 256],
    tables: &Tables,
    budget: u32,
    room: usize,
    width: usize,
    out: &mut [u32],
) -> Found
    requires { BeginPre tree.now.label.now tree.now.size.now (numbers_of pattern.now) tables.now room width out.old }
    ensures { BeginPost tree.now.label.now tree.now.size.now (numbers_of pattern.now) tables.now budget room width out.old result out.new }
{
    let mut record = [0u32; 32];
    let mut at = [0usize; 256];
    match walk::begin(tree, pattern, &mut record, &mut at) {
        Err(Halt::Fail) => search::ended(Ending::All, 0, 0),
        Err(Halt::Need(w)) => {
            let mut levels = [levels::UNENTERED; 256];
            let least = choice::least(pattern, w.place, w.start);
            let values = choice::values(tree.size, pattern, &at, w.place, w.start);
            levels::enter(&mut levels, 0, w, least, values);
            let limits = Limits {
                budget,
                room,
                width,
            };
            search::go(
                tree,
                pattern,
                tables,
                limits,
                &mut record,
                &mut at,
                &mut levels,
                1,
                out,
            )
        }
        Ok(_) => {
            if room == 0 {
                return search::ended(Ending::Room, 0, 0);
            }
            search::put(out, 0, &record, width);
            search::ended(Ending::All, 1, 0)
        }
    }
}

// The search from the levels that stand at a record, if it is that of a matcher.
pub fn resume(
    tree: &Tree,
    pattern: &[PatternRow; 256],
    tables: &Tables,
    list: &[u32],
    budget: u32,
    room: usize,
    width: usize,
    out: &mut [u32],
) -> Option<Found>
    requires { ResumePre tree.now.label.now tree.now.size.now (numbers_of pattern.now) tables.now list.now room width out.old }
    ensures { ResumePost tree.now.label.now tree.now.size.now (numbers_of pattern.now) tables.now list.now budget room width out.old out.new result }
{
    let limits = Limits {
        budget,
        room,
        width,
    };
    let mut record = [0u32; 32];
    let mut at = [0usize; 256];
    let mut levels = [levels::UNENTERED; 256];
    let depth = page::reach(
        tree,
        pattern,
        tables,
        list,
        &mut record,
        &mut at,
        &mut levels,
    )?;
    Some(search::go(
        tree,
        pattern,
        tables,
        limits,
        &mut record,
        &mut at,
        &mut levels,
        depth,
        out,
    ))
}
