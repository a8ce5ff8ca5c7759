// Where a sector comes from: the lookup. Work does not grow with the image.
#![tactic(auto)]

ghost use Rattle.std.specs.Prelude.{◌≡◌, ◌≤◌, ◌<◌};
ghost use Rattle.format.specs.Source.{lookup_table, lookup_in, sector_lookup};
ghost use Rattle.format.specs.declared.Entry.TheVariants.{Sector};
ghost use Rattle.format.specs.Judged.{Sound};

use format::{Entry, Header, MisplacedPart, Refusal, Source};

mod grain;

// The table that a directory entry names, if it names one.
fn in_table(image: &[u8], h: Header, g: u64, o: u64, t: u64) -> Result<Source, Refusal>
    requires { Sound h × (g ≤ 0x80000000) × (o < h.grain_size) }
    ensures { result ≡ lookup_table image.now h g o (Sector t) }
{
    if entries::table_past(image, t, h.table_sectors) {
        return Err(Refusal::Misplaced(MisplacedPart::PrimaryTable));
    }
    let k = g % h.entries_per_table;
    let entry = entries::meaning_at(image, h.one_is_zero, t, k);
    grain::lookup_entry(image, h, g, o, entry)
}

// What the directory's entry says of sector o of grain g.
fn lookup_table(image: &[u8], h: Header, g: u64, o: u64, entry: Entry) -> Result<Source, Refusal>
    requires { Sound h × (g ≤ 0x80000000) × (o < h.grain_size) }
    ensures { result ≡ lookup_table image.now h g o entry }
{
    match entry {
        Entry::Absent => Ok(Source::Absent),
        Entry::Zero => Ok(Source::Zero),
        Entry::Sector(t) => in_table(image, h, g, o, t),
    }
}

// 20, then directory sector 0 and the whole directory, then what the sector leads to.
fn lookup_in(image: &[u8], h: Header, sector: u64) -> Result<Source, Refusal>
    requires { Sound h }
    ensures { result ≡ lookup_in image.now h sector }
{
    if h.capacity <= sector {
        return Err(Refusal::SectorPast);
    }
    if entries::directory_misplaced(image, h) {
        return Err(Refusal::Misplaced(MisplacedPart::Directory));
    }
    let g = sector / h.grain_size;
    let d = g / h.entries_per_table;
    let entry = entries::meaning_at(image, h.one_is_zero, h.directory, d);
    lookup_table(image, h, g, sector % h.grain_size, entry)
}

// The source of a virtual sector, or the first of 1 to 7, 20, 8, 9, 10 that is met on the way to it.
pub fn lookup(image: &[u8], sector: u64) -> Result<Source, Refusal>
    ensures { result ≡ sector_lookup image.now sector }
{
    let h = header::judge(image)?;
    lookup_in(image, h, sector)
}
