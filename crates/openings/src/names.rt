// The names of the open elements. At most 64 are kept, by where they start, the outer ones first, each with how many elements hold its
// own. Where one more opens than there is room for, the outer ones are thinned out: of those that start in one block of 1,024 bytes the
// innermost stays. What was forgotten is found again where it is the innermost, by walking back from the start tag whose element has just
// ended, and with it the forgotten names around it, as many as there is room for. So no walk leaves its block, and between two that pass
// over the same bytes sixteen elements or more end, since the sixteen innermost names stay.
ghost use Rattle.std.specs.Prelude.{◌≡◌, ◌-◌, ◌≤◌, ◌<◌, length, get_or};
ghost use Rattle.openings.specs.OpenNames.{Keeping, LowNames, Stays, Spared, OpenedOne, MayFind, Finds, reaches, MayClose, ClosedOne};

use super::back::innermost_before;

const MOST_NAMES: usize = 64;

// So many of the inner names stay, however near to each other they stand.
const INNER: usize = 16;

// Of the outer names one stays for each block of so many bytes.
const BLOCK: usize = 1024;

// The first `kept` places of both lists: where a name starts, and how many elements hold its own.
#[derive(Drop)]
pub struct OpenNames {
    pub names: [u16; 64],
    pub levels: [u16; 64],
    pub kept: usize,
}

// Whether the name at j stays, as 1 or 0; and the last block in which a name up to the next starts.
#[derive(Drop)]
struct Stay {
    count: usize,
    block: usize,
}

fn stays(names: &[u16; 64], j: usize, block: usize) -> Stay
    requires { (length names.now ≡ 64) × LowNames names.now × (j < 64) × (block ≤ 32) }
    ensures { Stays j block result.count result.block }
{
    if MOST_NAMES - INNER <= j {
        return Stay {
            count: 1,
            block: block,
        };
    }
    let next = usize::from(names[j + 1]) / BLOCK;
    if block < next {
        return Stay {
            count: 1,
            block: next,
        };
    }
    Stay {
        count: 0,
        block: block,
    }
}

impl OpenNames {
    // None is open.
    pub fn new() -> OpenNames
        ensures { Keeping result.names result.levels result.kept × (result.kept ≡ 0) }
    {
        OpenNames {
            names: [0; 64],
            levels: [0; 64],
            kept: 0,
        }
    }

    // Where the innermost open element's name starts, if one is open.
    pub fn innermost(&self) -> usize
        requires { (length self.now.names ≡ 64) × (self.now.kept ≤ 64) }
        ensures { (result < 65536) × (0 < self.now.kept → result ≡ get_or self.now.names (self.now.kept - 1) 0) }
    {
        if self.kept == 0 {
            return 0;
        }
        usize::from(self.names[self.kept - 1])
    }

    // An element opens, which `depth` others hold.
    pub fn open(&mut self, depth: usize, name: usize)
        requires { Keeping self.old.names self.old.levels self.old.kept × (self.old.kept ≡ 64 → LowNames self.old.names) × (depth < 65536) × (name < 65536) }
        ensures { OpenedOne self.old.names self.old.levels self.old.kept depth name self.new.names self.new.levels self.new.kept }
    {
        if self.kept == MOST_NAMES {
            self.thin();
        }
        self.names[self.kept] = name as u16;
        self.levels[self.kept] = depth as u16;
        self.kept += 1;
    }

    // All places are taken: some are freed. A name is put to its new place whether it stays or not, and counted only if it stays.
    fn thin(&mut self)
        requires { (self.old.kept ≡ 64) × Keeping self.old.names self.old.levels 64 × LowNames self.old.names }
        ensures { Spared self.old.names self.old.levels 64 self.new.names self.new.levels self.new.kept }
    {
        let mut count: usize = 0;
        let mut block: usize = 0;
        for j in 0..MOST_NAMES {
            let stay = stays(&self.names, j, block);
            self.names[count] = self.names[j];
            self.levels[count] = self.levels[j];
            count += stay.count;
            block = stay.block;
        }
        self.kept = count;
    }

    // The innermost element ends, and `depth` are open then.
    pub fn close(&mut self, document: &[u8], depth: usize)
        requires { MayClose document.now self.old.names self.old.levels self.old.kept depth }
        ensures { ClosedOne document.now self.old.names self.old.levels self.old.kept depth self.new.names self.new.levels self.new.kept }
    {
        let left = self.kept - 1;
        self.kept = left;
        let known = self.reach();
        if known == depth {
            return;
        }
        let from = usize::from(self.names[left]) - 1;
        let top = left + (depth - known).min(MOST_NAMES - left);
        self.find_again(document, from, depth, top);
    }

    // How many elements there are up to the innermost whose name is kept, and with it.
    fn reach(&self) -> usize
        requires { (length self.now.levels ≡ 64) × (self.now.kept ≤ 64) }
        ensures { result ≡ reaches self.now.levels self.now.kept }
    {
        if self.kept == 0 {
            return 0;
        }
        usize::from(self.levels[self.kept - 1]) + 1
    }

    // The names of the innermost of `depth` elements that are open at `from`, put below `top` and down to those that are kept.
    fn find_again(&mut self, document: &[u8], from: usize, depth: usize, top: usize)
        requires { MayFind document.now self.old.names self.old.levels from depth self.old.kept top }
        ensures { Finds document.now self.old.names self.old.levels from depth self.old.kept top self.new.names self.new.levels × (self.new.kept ≡ top) }
    {
        let mut at = from;
        let mut level = depth;
        for k in (self.kept..top).rev() {
            at = innermost_before(document, at);
            level -= 1;
            self.names[k] = (at + 1) as u16;
            self.levels[k] = level as u16;
        }
        self.kept = top;
    }
}
