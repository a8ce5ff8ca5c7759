// A disk cut into several files, told by a descriptor: where a virtual sector comes from.
#![tactic(auto)]

use format::Refusal;

// Why the lookup in such a disk refuses. An extent is its number, from 0.
#[derive(Clone, Copy)]
pub enum SplitRefusal {
    // The descriptor is refused: number and place.
    Unread(u64, u64),
    // Of the whole disk: the list of lengths, and a sector past the last extent.
    Lengths,
    SectorPast,
    // Of the sector's own extent.
    NoAccess(u64),
    OtherFile(u64),
    Image(u64, Refusal),
    CapacityDiffers(u64),
}
