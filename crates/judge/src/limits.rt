// The limits that the reader keeps.
pub const MOST_BYTES: usize = 32768;

pub const DEEPEST: usize = 64;

pub const MOST_ROWS: usize = 2048;
