// The kinds of a pattern's rows: numbers and no enum, since they stand in lists that C lends.
pub const SYMBOL: u32 = 0;

pub const INDIVIDUAL: u32 = 1;

pub const SEQUENCE: u32 = 2;

pub const FUNCTION: u32 = 3;

pub const CONTEXT: u32 = 4;
