// The types that all calls pass round. What they mean is document 01, section by section, in specs/.
#![tactic(auto)]

pub mod closing;
mod located;
pub mod numbers;
pub mod steps;
mod told;

pub use numbers::{Framed, Head, Located, Marked, Mended, Part, Surveyed, Verdict, Written};

// Sector 0 of a KDMV image, field by field.
#[derive(Clone, Copy)]
pub struct KdmvFields {
    pub version: u64,
    pub flags: u64,
    pub capacity: u64,
    pub grain_size: u64,
    pub descriptor: u64,
    pub descriptor_sectors: u64,
    pub entries_per_table: u64,
    pub redundant: u64,
    pub directory: u64,
    pub dirty: u64,
    // Whether the newline bytes are 0a 20 0d 0a.
    pub newline: bool,
    pub compression: u64,
}

// The header of a COWD image, field by field.
#[derive(Clone, Copy)]
pub struct CowdFields {
    pub version: u64,
    pub capacity: u64,
    pub grain_size: u64,
    pub directory: u64,
    pub directory_entries: u64,
    pub dirty: u64,
}

// What a call has to know of a header that was judged, of either kind. It is made in one place.
#[derive(Clone, Copy)]
pub struct Header {
    pub cowd: bool,
    pub capacity: u64,
    pub grain_size: u64,
    pub header_sectors: u64,
    // Both 0 for no descriptor.
    pub descriptor: u64,
    pub descriptor_sectors: u64,
    pub directory: u64,
    pub directory_sectors: u64,
    // The redundant directory's sector, 0 for none.
    pub redundant: u64,
    pub entries_per_table: u64,
    pub table_sectors: u64,
    // Whether an entry of 1 means zeros, and is no sector.
    pub one_is_zero: bool,
    pub packed: bool,
    pub footer: bool,
    // 0 for a disk that was shut down. It decides nothing but 27.
    pub dirty: u64,
}

// The parts that 8 judges, in the order of their places.
#[derive(Clone, Copy)]
pub enum MisplacedPart {
    Descriptor,
    Directory,
    RedundantDirectory,
    PrimaryTable,
    RedundantTable,
}

// Why a call on images refuses, in the order of its numbers: 1 to 12, 20 to 24, 27, 40 to 44, 47. A case holds the part,
// the grain or the byte that is its place.
#[derive(Clone, Copy)]
pub enum Refusal {
    TooShort,
    Magic,
    Version,
    Newline,
    Flags,
    Sizes,
    Footer,
    Misplaced(MisplacedPart),
    GrainPast(u64),
    Marker(u64),
    CopiesDiffer,
    SharedSector,
    SectorPast,
    TooLittleRoom,
    LayersDiffer,
    NotCollapsible,
    LayerLengths,
    StillOpen,
    NotMendable,
    NotClosable,
    NotNormal(u64),
    KindGone,
    NotMovable,
    ProfileSizes,
}

// As an image of which kind grains are written.
#[derive(Clone, Copy)]
pub enum Kind {
    Kdmv,
    Cowd,
}

// Images of which kinds a call takes. Only the moves take COWD.
#[derive(Clone, Copy)]
pub enum Taken {
    KdmvAlone,
    Either,
}

// Whose tables are good where the two directories' tables differ.
#[derive(Clone, Copy)]
pub enum Side {
    Primary,
    Redundant,
}

// What an entry of a directory or table means.
#[derive(Clone, Copy)]
pub enum Entry {
    Absent,
    Zero,
    Sector(u64),
}

// Where a virtual sector comes from.
#[derive(Clone, Copy)]
pub enum Source {
    Absent,
    Zero,
    // The file sector.
    Stored(u64),
    Packed { marker: u64, size: u64, offset: u64 },
}

// The source of a sector and the layer of a chain, from 0 at the base, that has it.
#[derive(Clone, Copy)]
pub struct LayerSource {
    pub layer: u64,
    pub source: Source,
}

// Grains by kind, of several images.
#[derive(Clone, Copy)]
pub struct Totals {
    pub stored: u64,
    pub zero: u64,
    pub absent: u64,
    pub packed: u64,
}

// What a survey tells of an image: its grains by kind, or its refusal's number and place.
#[derive(Clone, Copy)]
pub struct Row {
    pub stored: u64,
    pub zero: u64,
    pub absent: u64,
    pub packed: u64,
    pub number: u64,
    pub place: u64,
}

// What the check of an accepted image answers.
#[derive(Clone, Copy)]
pub struct Shape {
    pub capacity: u64,
    pub grain_size: u64,
}

// Why a call on a chain refuses, and at which layer.
#[derive(Clone, Copy)]
pub struct LayerRefusal {
    pub layer: u64,
    pub refusal: Refusal,
}

// The check in a lent list: its answer, and how many sectors it marked.
#[derive(Clone, Copy)]
pub struct MarkedAnswer {
    pub checked: Result<Shape, Refusal>,
    pub marked: u64,
}
