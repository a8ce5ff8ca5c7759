// Refusals 9 and 10 with the lowest grain number: one walk over directory and table entries, left at the first entry at fault.
#![tactic(auto)]

ghost use Rattle.std.specs.Prelude.{◌≡◌, false, ◌&&◌, ℕ, ◌+◌, ◌≤◌, ◌<◌, ltb};
ghost use Rattle.base.specs.Pick.{pick};
ghost use Rattle.format.specs.Geometry.{file_sectors};
ghost use Rattle.format.specs.Header.{grains_of};
ghost use Rattle.format.specs.Entries.{grain_sectors, marker_broken};
ghost use Rattle.format.specs.Areas.{named, runs_past};
ghost use Rattle.format.specs.Check.{lowest_from, grain_past, marker_broken_at, bad_marker, lowest_past, lowest_bad_marker};
ghost use Rattle.format.specs.Judged.{Placed, Filed};

use blocks::{block_entries, past_zeros};
use format::{Entry, Header};
use sizes::{directory_entries, entries_in_use, grains_of};

// Whether the grain at sector e breaks the rule that is judged: 10 of its marker, else 9. Where 10 is judged, 9 is kept, so
// that the marker can be read.
fn grain_broken(image: &[u8], markers: bool, packed: bool, size: u64, g: u64, e: u64) -> bool
    requires le_size { (1 ≤ size) × (size ≤ 2048) × (g ≤ 0x80000000) }
    requires e_value { (markers && ltb (file_sectors image.now) (e + grain_sectors image.now packed size e)) ≡ false }
    ensures { result ≡ pick markers (packed && marker_broken image.now size g e)
        (ltb (file_sectors image.now) (e + grain_sectors image.now packed size e)) }
{
    if markers {
        return entries::bad_marker(image, packed, size, g, e);
    }
    entries::grain_past(image, packed, size, e)
}

// The same of a table entry, which may name no grain.
fn entry_broken(image: &[u8], markers: bool, packed: bool, size: u64, g: u64, entry: Entry) -> bool
    requires le_size { (1 ≤ size) × (size ≤ 2048) × (g ≤ 0x80000000) }
    requires value { (markers && runs_past (file_sectors image.now) (named (grain_sectors image.now packed size) entry))
        ≡ false }
    ensures { result ≡ pick markers (packed && marker_broken_at image.now size g entry)
        (runs_past (file_sectors image.now) (named (grain_sectors image.now packed size) entry)) }
{
    match entry {
        Entry::Absent | Entry::Zero => false,
        Entry::Sector(e) => grain_broken(image, markers, packed, size, g, e),
    }
}

// The lowest grain that breaks the rule. A directory entry that names no table is passed over with all its grains, and so are
// blocks of entries that are 0.
fn lowest_broken(image: &[u8], h: Header, markers: bool) -> Option<u64>
    requires placed { Placed image.now h }
    requires by_index { (g : ℕ) → g < grains_of h → (markers && grain_past image.now h g) ≡ false }
    ensures { result ≡ lowest_from (λ g. pick markers (bad_marker image.now h g) (grain_past image.now h g)) 0
        (grains_of h) }
{
    let all = grains_of(h.capacity, h.grain_size);
    let per_table = h.entries_per_table;
    let n = directory_entries(h.capacity, per_table, h.grain_size);
    for d in 0..n {
        let first = d * per_table;
        let table = entries::meaning_at(image, h.one_is_zero, h.directory, d);
        if let Entry::Sector(t) = table {
            let used = entries_in_use(per_table, all - first);
            let mut next: u64 = 0;
            // Leaps over blocks of zeros, which no range does.
            while next < used {
                let from = past_zeros(image, t, next, used);
                next = from + block_entries(from, used);
                for k in from..next {
                    let entry = entries::meaning_at(image, h.one_is_zero, t, k);
                    if entry_broken(image, markers, h.packed, h.grain_size, first + k, entry) {
                        return Some(first + k);
                    }
                }
            }
        }
    }
    None
}

// 9: the lowest grain past F.
pub fn lowest_past(image: &[u8], h: Header) -> Option<u64>
    requires { Placed image.now h }
    ensures { result ≡ lowest_past image.now h }
{
    lowest_broken(image, h, false)
}

// 10: the lowest packed grain whose marker is wrong. Only a packed image has markers.
pub fn lowest_bad_marker(image: &[u8], h: Header) -> Option<u64>
    requires { Filed image.now h }
    ensures { result ≡ lowest_bad_marker image.now h }
{
    if h.packed {
        return lowest_broken(image, h, true);
    }
    None
}
