// How a lookup comes to its answer, and the same in numbers.

// What stands on the way to a sector's source; what was not reached is 0.
#[derive(Clone, Copy)]
pub struct Way {
    pub one_is_zero: bool,
    pub grain: u64,
    // An entry's place is its first byte in the file; the entry is the number that stands there.
    pub directory_at: u64,
    pub directory_entry: u64,
    pub table_at: u64,
    pub table_entry: u64,
}

// The way and the lookup's answer: number 0 is an answer, and what does not apply is 0.
#[repr(C)]
#[derive(Clone, Copy)]
pub struct Steps {
    pub number: u64,
    pub place: u64,
    pub one_is_zero: u64,
    pub grain: u64,
    pub directory_at: u64,
    pub directory_entry: u64,
    pub table_at: u64,
    pub table_entry: u64,
    pub kind: u64,
    pub sector: u64,
    pub size: u64,
    pub offset: u64,
}
