// A download that broke off: what stands in it, and what closing it answers.
// What stands at a sector of a stream.
#[derive(Clone, Copy)]
pub enum Block {
    Stop,
    // A table or a directory with its marker, of so many sectors.
    Other(u64),
    Grain { number: u64, sectors: u64 },
}

// What closing a stream comes to: kept sectors, kept grains, and the tail's length in bytes.
#[derive(Clone, Copy)]
pub struct Kept {
    pub sectors: u64,
    pub grains: u64,
    pub length: u64,
}

// The same in numbers: number 0 is an answer, and what does not apply is 0.
#[repr(C)]
#[derive(Clone, Copy)]
pub struct Closed {
    pub number: u64,
    pub place: u64,
    pub sectors: u64,
    pub grains: u64,
    pub length: u64,
}
