// The answers of calls in numbers, as document 01 has them: number 0 is an answer, and what does not apply is 0.

// The verdict of a check.
#[repr(C)]
#[derive(Clone, Copy)]
pub struct Verdict {
    pub number: u64,
    pub place: u64,
    pub capacity: u64,
    pub grain_size: u64,
}

// The check in a lent list, with the sectors that it marked.
#[repr(C)]
#[derive(Clone, Copy)]
pub struct Marked {
    pub number: u64,
    pub place: u64,
    pub capacity: u64,
    pub grain_size: u64,
    pub marked: u64,
}

// kind: 0 absent, 1 zero, 2 stored, 3 packed.
#[repr(C)]
#[derive(Clone, Copy)]
pub struct Located {
    pub number: u64,
    pub layer: u64,
    pub place: u64,
    pub kind: u64,
    pub sector: u64,
    pub size: u64,
    pub offset: u64,
}

#[repr(C)]
#[derive(Clone, Copy)]
pub struct Written {
    pub number: u64,
    pub place: u64,
    pub length: u64,
}

// The areas of an image but its grains.
#[repr(C)]
#[derive(Clone, Copy)]
pub struct Framed {
    pub number: u64,
    pub place: u64,
    pub count: u64,
}

// How many entries of the two sides' tables differed.
#[repr(C)]
#[derive(Clone, Copy)]
pub struct Mended {
    pub number: u64,
    pub place: u64,
    pub count: u64,
}

// Grains by kind, of all images that are accepted.
#[repr(C)]
#[derive(Clone, Copy)]
pub struct Surveyed {
    pub number: u64,
    pub place: u64,
    pub stored: u64,
    pub zero: u64,
    pub absent: u64,
    pub packed: u64,
}

// A header judged alone, with the descriptor's numbers and the dirty number as it has them.
#[repr(C)]
#[derive(Clone, Copy)]
pub struct Head {
    pub number: u64,
    pub place: u64,
    pub capacity: u64,
    pub grain_size: u64,
    pub descriptor: u64,
    pub descriptor_sectors: u64,
    pub dirty: u64,
}

// The bytes of an image that the grain reader hands back: both 0 where there are none.
#[repr(C)]
#[derive(Clone, Copy)]
pub struct Part {
    pub at: u64,
    pub length: u64,
}
