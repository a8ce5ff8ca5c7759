// Entries of directories and tables, and what stands at the sectors that they name.
#![tactic(auto)]

ghost use Rattle.std.specs.Prelude.{◌≡◌, ◌&&◌, ltb, ◌+◌, ◌-◌, ◌*◌, ◌≤◌, ◌<◌, length};
ghost use Rattle.format.specs.Geometry.{file_sectors};
ghost use Rattle.format.specs.Entries.{entry_at, meaning, meaning_at, marker_size, grain_sectors, marker_broken};
ghost use Rattle.format.specs.Check.{directory_misplaced};

use format::{Entry, Header};

// F, the whole sectors of an image.
pub fn file_sectors(image: &[u8]) -> u64
    ensures { result ≡ file_sectors image.now }
{
    (image.len() / 512) as u64
}

// The sector n before the file's end; 0 if there are fewer.
pub fn before_end(image: &[u8], n: u64) -> u64
    ensures { result ≡ file_sectors image.now - n }
{
    file_sectors(image).saturating_sub(n)
}

// Entry k of the directory or table that starts at sector t.
pub fn entry_at(image: &[u8], t: u64, k: u64) -> u64
    requires { 512 * t + 4 * k + 4 ≤ length image.now }
    ensures { (result ≡ entry_at image.now t k) × (result < 0x100000000) }
{
    base::number_at::<4>(image, (512 * t + 4 * k) as usize)
}

// What an entry means.
pub fn meaning_of(one_is_zero: bool, e: u64) -> Entry
    ensures { result ≡ meaning one_is_zero e }
{
    match e {
        0 => Entry::Absent,
        1 if one_is_zero => Entry::Zero,
        _ => Entry::Sector(e),
    }
}

pub fn meaning_at(image: &[u8], one_is_zero: bool, t: u64, k: u64) -> Entry
    requires { 512 * t + 4 * k + 4 ≤ length image.now }
    ensures { result ≡ meaning_at image.now one_is_zero t k }
{
    meaning_of(one_is_zero, entry_at(image, t, k))
}

// Directory sector 0, or a directory that runs past F.
pub fn directory_misplaced(image: &[u8], h: Header) -> bool
    ensures { result ≡ directory_misplaced (file_sectors image.now) h }
{
    h.directory == 0 || base::ends_past(h.directory, h.directory_sectors, file_sectors(image))
}

// Whether a table of so many sectors at sector t runs past F.
pub fn table_past(image: &[u8], t: u64, sectors: u64) -> bool
    ensures { result ≡ ltb (file_sectors image.now) (t + sectors) }
{
    base::ends_past(t, sectors, file_sectors(image))
}

// The bytes of a packed grain whose marker stands at sector e.
pub fn marker_size(image: &[u8], e: u64) -> u64
    requires { 512 * e + 12 ≤ length image.now }
    ensures { (result ≡ marker_size image.now e) × (result < 0x100000000) }
{
    base::number_at::<4>(image, (512 * e + 8) as usize)
}

// The sectors of the grain at sector e: its marker is read only if it is packed.
pub fn grain_sectors(image: &[u8], packed: bool, size: u64, e: u64) -> u64
    requires { 512 * e + 12 ≤ length image.now }
    ensures { result ≡ grain_sectors image.now packed size e }
{
    if packed {
        base::ceil_div(12 + marker_size(image, e), 512)
    } else {
        size
    }
}

// Whether the grain at sector e runs past F. A marker past F is not read.
pub fn grain_past(image: &[u8], packed: bool, size: u64, e: u64) -> bool
    requires { 1 ≤ size }
    ensures { result ≡ ltb (file_sectors image.now) (e + grain_sectors image.now packed size e) }
{
    let f = file_sectors(image);
    f <= e || base::ends_past(e, grain_sectors(image, packed, size, e), f)
}

// A marker whose size is 0, or whose first number is not that of grain g.
pub fn marker_broken(image: &[u8], size: u64, g: u64, e: u64) -> bool
    requires { (512 * e + 12 ≤ length image.now) × (g ≤ 0x80000000) × (size ≤ 2048) }
    ensures { result ≡ marker_broken image.now size g e }
{
    marker_size(image, e) == 0 || base::number_at::<8>(image, (512 * e) as usize) != g * size
}

// Of a grain that is not packed no byte is read: it may lie anywhere on a disk.
pub fn bad_marker(image: &[u8], packed: bool, size: u64, g: u64, e: u64) -> bool
    requires { (512 * e + 12 ≤ length image.now) × (g ≤ 0x80000000) × (size ≤ 2048) }
    ensures { result ≡ (packed && marker_broken image.now size g e) }
{
    packed && marker_broken(image, size, g, e)
}
