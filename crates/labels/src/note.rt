// Rows as they are noted, in three lists: the start and the length of a row's spelling, and its size.
ghost use Rattle.std.specs.Prelude.{◌≡◌, ◌-◌, ◌≤◌, ◌<◌, set, replicate};
ghost use Rattle.labels.specs.Lists.{Long, Put};

// The first so many places of the three lists, as many as there are rows.
#[derive(Drop)]
pub struct RowLists {
    pub starts: [u16; 2052],
    pub lengths: [u16; 2052],
    pub sizes: [u16; 2052],
}

impl RowLists {
    // No row is noted.
    pub fn new() -> RowLists
        ensures { Long result.starts result.lengths result.sizes × (result.starts ≡ replicate 2052 0) × (result.lengths ≡ replicate 2052 0) × (result.sizes ≡ replicate 2052 0) }
    {
        RowLists {
            starts: [0; 2052],
            lengths: [0; 2052],
            sizes: [0; 2052],
        }
    }

    // A row behind those that are noted: it holds no other yet.
    pub fn put(&mut self, row: usize, start: usize, length: usize)
        requires { (row < 2052) × (start < 65536) × (length < 65536) }
        ensures { Put row start length self.old.starts self.old.lengths self.old.sizes self.new.starts self.new.lengths self.new.sizes }
    {
        self.starts[row] = start as u16;
        self.lengths[row] = length as u16;
        self.sizes[row] = 1;
    }

    // The row `top` holds all that follow it, up to the first `rows`.
    pub fn close(&mut self, top: usize, rows: usize)
        requires { (top < 2052) × (top ≤ rows) × (rows < 65536) }
        ensures { (self.new.starts ≡ self.old.starts) × (self.new.lengths ≡ self.old.lengths) × (self.new.sizes ≡ set self.old.sizes top (rows - top)) }
    {
        self.sizes[top] = (rows - top) as u16;
    }
}
