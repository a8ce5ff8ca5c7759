// The grain reader: the bytes of a sector's source, as a part of the image itself.
#![tactic(auto)]

ghost use Rattle.std.specs.Prelude.{◌≡◌, ◌+◌, ◌*◌, ◌^◌, ◌<◌, length};
ghost use Rattle.format.specs.Source.{sector_lookup, source_part, answer_part, read};
ghost use Rattle.reader.specs.PartEnd.{part_end};

use format::{Part, Source};

fn nothing() -> Part
    ensures { result ≡ record { at = 0; length = 0 } }
{
    Part { at: 0, length: 0 }
}

// A stored sector.
fn stored_part(sector: u64) -> Part
    requires { 512 * sector + 512 < 2 ^ 64 }
    ensures { result ≡ record { at = 512 * sector; length = 512 } }
{
    Part {
        at: 512 * sector,
        length: 512,
    }
}

// The closed payload of a packed grain, after the marker's 12 bytes.
fn packed_part(marker: u64, size: u64) -> Part
    requires { 512 * marker + 12 + size < 2 ^ 64 }
    ensures { result ≡ record { at = 512 * marker + 12; length = size } }
{
    Part {
        at: 512 * marker + 12,
        length: size,
    }
}

fn source_part(source: Source) -> Part
    requires { part_end source < 2 ^ 64 }
    ensures { result ≡ source_part source }
{
    match source {
        Source::Absent => nothing(),
        Source::Zero => nothing(),
        Source::Stored(sector) => stored_part(sector),
        Source::Packed {
            marker,
            size,
            offset: _,
        } => packed_part(marker, size),
    }
}

// Where the bytes of that source stand in the image; 0 and 0 where there are none, and on every refusal.
pub fn part(image: &[u8], sector: u64) -> Part
    ensures { result ≡ answer_part (sector_lookup image.now sector) }
{
    let answer = lookup::lookup(image, sector);
    match answer {
        Ok(source) => source_part(source),
        Err(_) => nothing(),
    }
}

// Those bytes, as a part of the image itself.
pub fn read(image: &[u8], sector: u64) -> &[u8]
    ensures { result.now ≡ read image.now sector }
{
    let part = part(image, sector);
    let from = part.at as usize;
    let end = (part.at + part.length) as usize;
    &image[from..end]
}
