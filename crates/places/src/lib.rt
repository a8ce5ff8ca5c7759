// Refusal 8: descriptor, directories and tables, each part a function of its own, judged in their order.
#![tactic(auto)]

ghost use Rattle.std.specs.Prelude.{◌≡◌, false, ◌+◌, ◌*◌, ◌≤◌, length};
ghost use Rattle.format.specs.Geometry.{file_sectors};
ghost use Rattle.format.specs.Entries.{meaning_at};
ghost use Rattle.format.specs.Areas.{named, table_areas, runs_past};
ghost use Rattle.format.specs.Check.{descriptor_misplaced, directory_misplaced, redundant_directory_misplaced};
ghost use Rattle.format.specs.Check.{primary_tables_misplaced, redundant_tables_misplaced, misplaced, lowest_misplaced};
ghost use Rattle.format.specs.Judged.{Sound};

use entries::{directory_misplaced, file_sectors, meaning_at, table_past};
use format::{Entry, Header, MisplacedPart};
use sizes::directory_entries;

// One descriptor number zero and one not, or the descriptor past sector `end`.
pub fn descriptor_past(end: u64, h: Header) -> bool
    ensures { result ≡ descriptor_misplaced end h }
{
    ((h.descriptor == 0) & !(h.descriptor_sectors == 0))
        | ((!(h.descriptor == 0) & (h.descriptor_sectors == 0))
            | base::ends_past(h.descriptor, h.descriptor_sectors, end))
}

fn descriptor_misplaced(image: &[u8], h: Header) -> bool
    ensures { result ≡ descriptor_misplaced (file_sectors image.now) h }
{
    descriptor_past(file_sectors(image), h)
}

// The redundant directory past F, if there is one.
fn redundant_directory_misplaced(image: &[u8], h: Header) -> bool
    ensures { result ≡ redundant_directory_misplaced (file_sectors image.now) h }
{
    if h.redundant == 0 {
        return false;
    }
    base::ends_past(h.redundant, h.directory_sectors, file_sectors(image))
}

// Whether the table that an entry names, if it names one, runs past F.
fn named_past(image: &[u8], sectors: u64, entry: Entry) -> bool
    ensures { result ≡ runs_past (file_sectors image.now) (named (λ e. sectors) entry) }
{
    match entry {
        Entry::Absent | Entry::Zero => false,
        Entry::Sector(t) => table_past(image, t, sectors),
    }
}

// The same of entry d of the directory at a sector.
fn entry_past(image: &[u8], one_is_zero: bool, sectors: u64, directory: u64, d: u64) -> bool
    requires { 512 * directory + 4 * d + 4 ≤ length image.now }
    ensures { result ≡ runs_past (file_sectors image.now)
        (named (λ e. sectors) (meaning_at image.now one_is_zero directory d)) }
{
    named_past(image, sectors, meaning_at(image, one_is_zero, directory, d))
}

// Whether a table that the first n entries of the directory at a sector name runs past F.
fn tables_past(image: &[u8], one_is_zero: bool, sectors: u64, directory: u64, n: u64) -> bool
    requires { 512 * directory + 4 * n ≤ length image.now }
    ensures { result ≡ runs_past (file_sectors image.now)
        (table_areas image.now one_is_zero sectors directory n) }
{
    (0..n).any(|d| entry_past(image, one_is_zero, sectors, directory, d))
}

// The tables of the primary directory, which lies in the file.
fn primary_tables_misplaced(image: &[u8], h: Header) -> bool
    requires { Sound h × (directory_misplaced (file_sectors image.now) h ≡ false) }
    ensures { result ≡ primary_tables_misplaced image.now h }
{
    let n = directory_entries(h.capacity, h.entries_per_table, h.grain_size);
    tables_past(image, h.one_is_zero, h.table_sectors, h.directory, n)
}

// The tables of the redundant directory, if there is one.
fn redundant_tables_misplaced(image: &[u8], h: Header) -> bool
    requires { Sound h × (redundant_directory_misplaced (file_sectors image.now) h ≡ false) }
    ensures { result ≡ redundant_tables_misplaced image.now h }
{
    if h.redundant == 0 {
        return false;
    }
    let n = directory_entries(h.capacity, h.entries_per_table, h.grain_size);
    tables_past(image, h.one_is_zero, h.table_sectors, h.redundant, n)
}

// All of 8, in this order: a directory is read only after it was judged.
pub fn misplaced(image: &[u8], h: Header) -> bool
    requires { Sound h }
    ensures { result ≡ misplaced image.now h }
{
    if descriptor_misplaced(image, h) {
        return true;
    }
    if directory_misplaced(image, h) {
        return true;
    }
    if redundant_directory_misplaced(image, h) {
        return true;
    }
    if primary_tables_misplaced(image, h) {
        return true;
    }
    redundant_tables_misplaced(image, h)
}

// The lowest part that is misplaced, where one is: asked after 8 was found, so that an accepted image pays nothing for it.
pub fn lowest_misplaced(image: &[u8], h: Header) -> MisplacedPart
    requires { Sound h }
    ensures { result ≡ lowest_misplaced image.now h }
{
    if descriptor_misplaced(image, h) {
        return MisplacedPart::Descriptor;
    }
    if directory_misplaced(image, h) {
        return MisplacedPart::Directory;
    }
    if redundant_directory_misplaced(image, h) {
        return MisplacedPart::RedundantDirectory;
    }
    if primary_tables_misplaced(image, h) {
        return MisplacedPart::PrimaryTable;
    }
    MisplacedPart::RedundantTable
}
