// The kinds of an expression table's rows: numbers and no enum, since they stand in lists that C lends.
pub const SYMBOL: u32 = 0;

pub const EMPTY: u32 = 1;

pub const CONCATENATION: u32 = 2;

pub const CHOICE: u32 = 3;

pub const REPETITION: u32 = 4;
