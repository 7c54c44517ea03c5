// The bytes of the kinds, as memory and frames publish them; what has another byte is Any.
pub const EMPTY: usize = 0;

pub const NIL: usize = 1;

pub const NUM: usize = 2;

pub const TRUTH: usize = 3;

pub const FUN: usize = 4;

pub const CLASS: usize = 5;

pub const INT: usize = 6;

pub const BOOL: usize = 7;

pub const OBJECTS: usize = 8;

pub const ANY: usize = 9;
