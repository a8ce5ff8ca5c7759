// How a lookup comes to its answer: the entries that stand on its way, by the lookup's own tests.
#![tactic(auto)]

ghost use Rattle.std.specs.Prelude.{◌≡◌, ◌+◌, ◌*◌, ◌/◌, ◌%◌, ◌≤◌, length};
ghost use Rattle.format.specs.Way.{no_way, to_grain, to_directory, to_table, way_table, way_in, way};
ghost use Rattle.format.specs.declared.Entry.TheVariants.{Sector};
ghost use Rattle.format.specs.Judged.{Sound};

use format::steps::Way;
use format::{Entry, Header};

fn no_way() -> Way
    ensures { result ≡ no_way }
{
    Way {
        one_is_zero: false,
        grain: 0,
        directory_at: 0,
        directory_entry: 0,
        table_at: 0,
        table_entry: 0,
    }
}

fn to_grain(h: Header, g: u64) -> Way
    ensures { result ≡ to_grain h g }
{
    Way {
        one_is_zero: h.one_is_zero,
        grain: g,
        directory_at: 0,
        directory_entry: 0,
        table_at: 0,
        table_entry: 0,
    }
}

fn to_directory(image: &[u8], h: Header, g: u64) -> Way
    requires { Sound h × (512 * h.directory + 4 * (g / h.entries_per_table) + 4 ≤ length image.now) }
    ensures { result ≡ to_directory image.now h g }
{
    let d = g / h.entries_per_table;
    Way {
        one_is_zero: h.one_is_zero,
        grain: g,
        directory_at: 512 * h.directory + 4 * d,
        directory_entry: entries::entry_at(image, h.directory, d),
        table_at: 0,
        table_entry: 0,
    }
}

// The entry of the table at sector t, behind the directory's.
fn to_table(image: &[u8], h: Header, g: u64, t: u64) -> Way
    requires sound { Sound h × (512 * h.directory + 4 * (g / h.entries_per_table) + 4 ≤ length image.now) }
    requires entries_per_table_in_bounds { 512 * t + 4 * (g % h.entries_per_table) + 4 ≤ length image.now }
    ensures { result ≡ to_table image.now h g t }
{
    let before = to_directory(image, h, g);
    let k = g % h.entries_per_table;
    Way {
        one_is_zero: before.one_is_zero,
        grain: before.grain,
        directory_at: before.directory_at,
        directory_entry: before.directory_entry,
        table_at: 512 * t + 4 * k,
        table_entry: entries::entry_at(image, t, k),
    }
}

// The table that a directory entry names, unless it runs past F.
fn in_table(image: &[u8], h: Header, g: u64, t: u64) -> Way
    requires { Sound h × (512 * h.directory + 4 * (g / h.entries_per_table) + 4 ≤ length image.now) }
    ensures { result ≡ way_table image.now h g (Sector t) }
{
    if entries::table_past(image, t, h.table_sectors) {
        return to_directory(image, h, g);
    }
    to_table(image, h, g, t)
}

// What the directory's entry leads to.
fn way_table(image: &[u8], h: Header, g: u64, entry: Entry) -> Way
    requires { Sound h × (512 * h.directory + 4 * (g / h.entries_per_table) + 4 ≤ length image.now) }
    ensures { result ≡ way_table image.now h g entry }
{
    match entry {
        Entry::Absent => to_directory(image, h, g),
        Entry::Zero => to_directory(image, h, g),
        Entry::Sector(t) => in_table(image, h, g, t),
    }
}

// 20, then the directory, then what its entry leads to.
fn way_in(image: &[u8], h: Header, sector: u64) -> Way
    requires { Sound h }
    ensures { result ≡ way_in image.now h sector }
{
    if h.capacity <= sector {
        return no_way();
    }
    let g = sector / h.grain_size;
    if entries::directory_misplaced(image, h) {
        return to_grain(h, g);
    }
    let d = g / h.entries_per_table;
    let entry = entries::meaning_at(image, h.one_is_zero, h.directory, d);
    way_table(image, h, g, entry)
}

// The entries on the way to a sector's source, as far as the lookup comes.
pub fn way(image: &[u8], sector: u64) -> Way
    ensures { result ≡ way image.now sector }
{
    let judged = header::judge(image);
    match judged {
        Err(r) => no_way(),
        Ok(h) => way_in(image, h, sector),
    }
}
