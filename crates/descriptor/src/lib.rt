// A descriptor's text: what it says, and the lent list of records in which its extents are handed over.
#![tactic(auto)]

ghost use Rattle.std.specs.Prelude.{◌≡◌};
ghost use Rattle.descriptor.specs.Extents.{access_number, kind_number};
ghost use Rattle.descriptor.specs.Said.{line_number, text_number, text_place};

// One extent, a record of the lent list. What its line doesn't have is 0.
#[repr(C)]
#[derive(Clone, Copy)]
pub struct Extent {
    // First virtual sector, and the number of sectors.
    pub first: u64,
    pub sectors: u64,
    // 1 RW, 2 RDONLY, 3 NOACCESS.
    pub access: u64,
    // Its type: 1 FLAT, 2 VMFS, 3 SPARSE, 4 VMFSSPARSE, 5 ZERO.
    pub kind: u64,
    // The name's place in the text, that of the byte after the opening quote, and its length.
    pub name_at: u64,
    pub name_length: u64,
    pub offset: u64,
}

// The first call's answer. On a refusal its number and place, and 0 for the rest; else number 0.
#[repr(C)]
#[derive(Clone, Copy)]
pub struct Described {
    pub number: u64,
    pub place: u64,
    pub extents: u64,
    pub version: u64,
    pub cid: u64,
    pub parent_cid: u64,
    pub type_at: u64,
    pub type_length: u64,
}

// The second call's answer: the number of a record in the list, from 0, or a refusal's number and place.
#[repr(C)]
#[derive(Clone, Copy)]
pub struct Found {
    pub number: u64,
    pub place: u64,
    pub extent: u64,
}

// Where a run of bytes stops: at a byte, at any other than it, at a space or tab, at any other than these, at the
// first byte that is not trimmed.
#[derive(Clone, Copy)]
pub enum Stop {
    Byte(u8),
    NotByte(u8),
    Blank,
    NotBlank,
    NotTrimmed,
}

// An access that an extent line begins with.
#[derive(Clone, Copy)]
pub enum Access {
    ReadWrite,
    ReadOnly,
    NoAccess,
}

impl Access {
    // Its number in a record.
    pub fn number(self) -> u64
        ensures { result ≡ access_number self }
    {
        match self {
            Access::ReadWrite => 1,
            Access::ReadOnly => 2,
            Access::NoAccess => 3,
        }
    }
}

// An extent's type.
#[derive(Clone, Copy)]
pub enum Kind {
    Flat,
    Vmfs,
    Sparse,
    VmfsSparse,
    Zero,
}

impl Kind {
    // Its number in a record.
    pub fn number(self) -> u64
        ensures { result ≡ kind_number self }
    {
        match self {
            Kind::Flat => 1,
            Kind::Vmfs => 2,
            Kind::Sparse => 3,
            Kind::VmfsSparse => 4,
            Kind::Zero => 5,
        }
    }
}

// A required key.
#[derive(Clone, Copy)]
pub enum Key {
    Version,
    Cid,
    ParentCid,
    CreateType,
}

// A quoted part: its place in the text, that of the byte after the opening quote, and its length.
#[derive(Clone, Copy)]
pub struct Quoted {
    pub at: u64,
    pub length: u64,
}

// A required key and its value.
#[derive(Clone, Copy)]
pub enum KeyValue {
    Version(u64),
    Cid(u64),
    ParentCid(u64),
    CreateType(Quoted),
}

// What one line says: nothing, an extent, a required key.
#[derive(Clone, Copy)]
pub enum Line {
    Skip,
    Holds(Extent),
    Key(KeyValue),
}

// Why a line is refused: it has no form (32), its required key is malformed or came before (33), its extent is malformed (34).
#[derive(Clone, Copy)]
pub enum LineFault {
    NoForm,
    BadKey,
    BadExtent,
}

// Why a text is refused, in the order of its numbers: 30, 31, 32 to 34 by the line, counted from 1, 33 for a required key that
// did not come, 35, 36.
#[derive(Clone, Copy)]
pub enum TextRefusal {
    NoFirstLine,
    ByteAfterZero,
    InLine(LineFault, u64),
    KeyMissing,
    BadExtents,
    TextTooLong,
}

impl LineFault {
    fn number(self) -> u64
        ensures { result ≡ line_number self }
    {
        match self {
            LineFault::NoForm => 32,
            LineFault::BadKey => 33,
            LineFault::BadExtent => 34,
        }
    }
}

impl TextRefusal {
    pub fn number(self) -> u64
        ensures { result ≡ text_number self }
    {
        match self {
            TextRefusal::NoFirstLine => 30,
            TextRefusal::ByteAfterZero => 31,
            TextRefusal::InLine(fault, _) => fault.number(),
            TextRefusal::KeyMissing => 33,
            TextRefusal::BadExtents => 35,
            TextRefusal::TextTooLong => 36,
        }
    }

    // The line, from 1 on, or 0.
    pub fn place(self) -> u64
        ensures { result ≡ text_place self }
    {
        match self {
            TextRefusal::InLine(_, line) => line,
            _ => 0,
        }
    }
}

// What is known after some lines.
#[derive(Clone, Copy)]
pub struct State {
    // How many lines there were, and whether the first line was among them.
    pub line: u64,
    pub begun: bool,
    // How many extents, the sum of their sectors, and the records of the first 32.
    pub extents: u64,
    pub sum: u64,
    pub records: [Extent; 32],
    // The required keys' values, once they came.
    pub version: Option<u64>,
    pub cid: Option<u64>,
    pub parent_cid: Option<u64>,
    pub create_type: Option<Quoted>,
}

// What a text without a refusal comes to: records, how many of them are to be stored, and the answer.
#[derive(Clone, Copy)]
pub struct Parsed {
    pub records: [Extent; 32],
    pub count: usize,
    pub answer: Described,
}
