// The lab profile: whether an image is its own normal form of grain size 128. The form is not written: its parts are compared
// in the file's order, each where all before it are alike.
#![tactic(auto)]

ghost use Rattle.std.specs.Prelude.{◌≡◌, ◌+◌, ◌*◌, ◌≤◌, min, length, Err};
ghost use Rattle.format.specs.Layout.{table_count, tables_at, sector_v};
ghost use Rattle.format.specs.Profile.{profile_sizes_broken, profile_from, profile};
ghost use Rattle.format.specs.declared.Kind.TheVariants.{Kdmv};
ghost use Rattle.format.specs.declared.Refusal.TheVariants.{NotNormal};
ghost use Rattle.layout.specs.WrittenParts.{entries_end};
ghost use Rattle.blocks.specs.Blocks.{Passed};
ghost use Rattle.profile.specs.FormCompared.{form_of, compared, entry_meant, next_meant, Taken, Published, AlikeTo, Laid};

use format::{Header, Kind, Refusal, Shape};
use layout::{sector_v, tables_at, tables_of};
use sizes::grains_of;

// 47: another grain size than 128, or a capacity that is no multiple of it.
fn sizes_broken(h: Header) -> bool
    ensures { result ≡ profile_sizes_broken h }
{
    !(h.grain_size == 128) | !(h.capacity % 128 == 0)
}

fn not_normal(place: usize) -> Result<Shape, Refusal>
    ensures { result ≡ Err (NotNormal place) }
{
    Err(Refusal::NotNormal(place as u64))
}

// Entries 0 and 1 mean themselves, any other the sector where the next stored grain stands.
fn entry_meant(entry: u64, next: u64) -> u64
    ensures { result ≡ entry_meant entry next }
{
    if entry < 2 {
        return entry;
    }
    next
}

// Grains that are stored stand back to back.
fn next_meant(entry: u64, next: u64) -> u64
    requires { next ≤ 0x100000000 }
    ensures { result ≡ next_meant entry next }
{
    if 1 < entry {
        return next + 128;
    }
    next
}

// The lengths: where all before the grains is alike, each stands where it is meant to, so its bytes are the form's. The form
// has so many sectors, and the image no less.
fn compare_lengths(image: &[u8], h: Header, sectors: u64) -> Result<Shape, Refusal>
    requires { Laid (512 * sector_v Kdmv h.capacity h.grain_size) sectors image.now h }
    ensures { result ≡ compared image.now h }
{
    let long = (512 * sectors) as usize;
    if long < image.len() {
        return not_normal(long);
    }
    Ok(Shape {
        capacity: h.capacity,
        grain_size: h.grain_size,
    })
}

fn least(a: usize, b: usize) -> usize
    ensures { result ≡ min a b }
{
    if a <= b {
        return a;
    }
    b
}

// Unused table entries and the gap: zeros up to V. An image that stores no grain may end before it.
fn compare_gap(image: &[u8], h: Header, sectors: u64) -> Result<Shape, Refusal>
    requires { Laid (entries_end Kdmv h.capacity h.grain_size) sectors image.now h }
    ensures { result ≡ compared image.now h }
{
    let first = tables_at(Kind::Kdmv, h.capacity, h.grain_size);
    let from = (512 * first + 4 * grains_of(h.capacity, h.grain_size)) as usize;
    let v = (512 * sector_v(Kind::Kdmv, h.capacity, h.grain_size)) as usize;
    let end = least(v, image.len());
    let place = alike::first_nonzero(image, from, end - from);
    if place < end {
        return not_normal(place);
    }
    if end < v {
        return not_normal(end);
    }
    compare_lengths(image, h, sectors)
}

// Past entries that are 0, which mean themselves: looked for where a block may begin, since most tables have long runs of them.
fn past_absent(image: &[u8], tables: u64, g: u64, all: u64) -> u64
    requires { (g ≤ all) × (512 * tables + 4 * all ≤ length image.now) }
    ensures { Passed image.now tables g all result }
{
    if g % 16 == 0 {
        return blocks::past_zeros(image, tables, g, all);
    }
    g
}

// The table entries in use. No range: g goes past a run of zeros at once, however long it is.
fn compare_tables(image: &[u8], h: Header) -> Result<Shape, Refusal>
    requires { AlikeTo (512 * tables_at Kdmv h.capacity h.grain_size) image.now h }
    ensures { result ≡ compared image.now h }
{
    let tables = tables_at(Kind::Kdmv, h.capacity, h.grain_size);
    let first = 512 * tables;
    let all = grains_of(h.capacity, h.grain_size);
    let mut next = sector_v(Kind::Kdmv, h.capacity, h.grain_size);
    let mut g: u64 = 0;
    while g < all {
        let at = (first + 4 * g) as usize;
        let entry = base::number_at::<4>(image, at);
        let place = alike::first_of_number(image, at, entry_meant(entry, next));
        if place < at + 4 {
            return not_normal(place);
        }
        next = next_meant(entry, next);
        g = past_absent(image, tables, g + 1, all);
    }
    compare_gap(image, h, next)
}

// What is left of the directory's sectors after the entries in use.
fn compare_unused(image: &[u8], h: Header) -> Result<Shape, Refusal>
    requires { AlikeTo (512 + 4 * table_count Kdmv h.capacity h.grain_size) image.now h }
    ensures { result ≡ compared image.now h }
{
    let from = (512 + 4 * tables_of(Kind::Kdmv, h.capacity, h.grain_size)) as usize;
    let tables = (512 * tables_at(Kind::Kdmv, h.capacity, h.grain_size)) as usize;
    let place = alike::first_nonzero(image, from, tables - from);
    if place < tables {
        return not_normal(place);
    }
    compare_tables(image, h)
}

// The directory entries in use: a table for each, of 4 sectors.
fn compare_directory(image: &[u8], h: Header) -> Result<Shape, Refusal>
    requires { AlikeTo 512 image.now h }
    ensures { result ≡ compared image.now h }
{
    let n = tables_of(Kind::Kdmv, h.capacity, h.grain_size);
    let first = tables_at(Kind::Kdmv, h.capacity, h.grain_size);
    for d in 0..n {
        let at = (512 + 4 * d) as usize;
        let place = alike::first_of_number(image, at, first + 4 * d);
        if place < at + 4 {
            return not_normal(place);
        }
    }
    compare_unused(image, h)
}

// The header, which alone is written: it tells of no redundant directory and of no descriptor.
fn compare_header(image: &[u8], h: Header) -> Result<Shape, Refusal>
    requires { Published image.now h }
    ensures { result ≡ compared image.now h }
{
    let mut head = [0u8; 512];
    front::write_kdmv(&mut head, h.capacity, h.grain_size);
    let place = alike::first_other(image, 0, &head);
    if place < 512 {
        return not_normal(place);
    }
    compare_directory(image, h)
}

// Of an accepted image: 23, 27, 47, 42.
fn profile_accepted(image: &[u8], h: Header) -> Result<Shape, Refusal>
    requires { Taken image.now h }
    ensures { result ≡ profile_from h image.now (form_of image.now h) }
{
    if collapse::not_collapsible(h) {
        return Err(Refusal::NotCollapsible);
    }
    if collapse::still_open(h) {
        return Err(Refusal::StillOpen);
    }
    if sizes_broken(h) {
        return Err(Refusal::ProfileSizes);
    }
    compare_header(image, h)
}

// Accepted, with capacity and grain size, exactly where the image meets the profile; else the first refusal.
pub fn profile(image: &[u8]) -> Result<Shape, Refusal>
    ensures { result ≡ profile image.now }
{
    let h = accept::accepted(image)?;
    profile_accepted(image, h)
}
