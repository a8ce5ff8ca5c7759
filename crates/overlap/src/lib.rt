// Refusal 12: whether a sector lies in two areas of an image. Runs of sectors are marked in windows of the file.
#![tactic(auto)]

ghost use Rattle.std.specs.Prelude.{◌≡◌, [], false};
ghost use Rattle.base.specs.Pick.{pick};
ghost use Rattle.format.specs.Geometry.{file_sectors};
ghost use Rattle.format.specs.Areas.{table_areas, grain_areas, areas, runs_past, meet};
ghost use Rattle.window.specs.Run.{Run, Counted, Window};
ghost use Rattle.named.specs.Named.{least_sector};
ghost use Rattle.named.specs.Listed.{Listed};
ghost use Rattle.overlap.specs.InFile.{InFile, head_areas, directory_areas, front_areas, tables_of, back_areas, beside_grains};
ghost use Rattle.overlap.specs.InFile.{around, walked, Ends};

use ascent::{Stretch, sectors_of};
use entries::{before_end, file_sectors};
use format::Header;
use named::{mark_grains, mark_tables};
use sizes::{directory_entries, grains_of};
use window::{mark_area, mark_if};

// Marks header and descriptor.
fn mark_head(words: &mut [u64], lo: u64, h: Header) -> bool
    requires { Counted words.old × Ends h }
    ensures { Run lo words.old (head_areas h) words.new result }
{
    if mark_area(&mut *words, lo, 0, h.header_sectors) {
        return true;
    }
    let described = !(h.descriptor == 0) & !(h.descriptor_sectors == 0);
    mark_if(
        &mut *words,
        lo,
        described,
        h.descriptor,
        h.descriptor_sectors,
    )
}

// Marks directory and redundant directory.
fn mark_directories(words: &mut [u64], lo: u64, h: Header) -> bool
    requires { Counted words.old × Ends h }
    ensures { Run lo words.old (directory_areas h) words.new result }
{
    if mark_area(&mut *words, lo, h.directory, h.directory_sectors) {
        return true;
    }
    mark_if(
        &mut *words,
        lo,
        !(h.redundant == 0),
        h.redundant,
        h.directory_sectors,
    )
}

// Marks what stands at fixed places: header, descriptor and both directories.
fn mark_front(words: &mut [u64], lo: u64, h: Header) -> bool
    requires { Counted words.old × Ends h }
    ensures { Run lo words.old (front_areas h) words.new result }
{
    if mark_head(&mut *words, lo, h) {
        return true;
    }
    mark_directories(&mut *words, lo, h)
}

// Marks the tables that the first n entries of a directory name, unless they are left out.
fn mark_tables_unless(
    words: &mut [u64],
    lo: u64,
    image: &[u8],
    left_out: bool,
    one_is_zero: bool,
    sectors: u64,
    directory: u64,
    n: u64,
) -> bool
    requires { Counted words.old
        × (left_out ≡ false → Listed image.now (least_sector one_is_zero) false sectors directory n) }
    ensures { Run lo words.old (pick left_out [] (table_areas image.now one_is_zero sectors directory n))
        words.new result }
{
    if left_out {
        return false;
    }
    mark_tables(&mut *words, lo, image, one_is_zero, sectors, directory, n)
}

// Marks every table of either directory, of the primary one unless its tables stand between grains.
fn mark_tables_of(words: &mut [u64], lo: u64, image: &[u8], h: Header, between: bool) -> bool
    requires { Counted words.old × InFile image.now h }
    ensures { Run lo words.old (tables_of image.now h between) words.new result }
{
    let n = directory_entries(h.capacity, h.entries_per_table, h.grain_size);
    if mark_tables_unless(
        &mut *words,
        lo,
        image,
        between,
        h.one_is_zero,
        h.table_sectors,
        h.directory,
        n,
    ) {
        return true;
    }
    mark_tables_unless(
        &mut *words,
        lo,
        image,
        h.redundant == 0,
        h.one_is_zero,
        h.table_sectors,
        h.redundant,
        n,
    )
}

// Marks footer and last sector, where used.
fn mark_back(words: &mut [u64], lo: u64, image: &[u8], h: Header) -> bool
    requires { Counted words.old }
    ensures { Run lo words.old (back_areas image.now h) words.new result }
{
    if mark_if(&mut *words, lo, h.footer, before_end(image, 2), 1) {
        return true;
    }
    mark_if(&mut *words, lo, h.footer, before_end(image, 1), 1)
}

// Marks every grain.
fn mark_all_grains(words: &mut [u64], lo: u64, image: &[u8], h: Header) -> bool
    requires { Counted words.old × InFile image.now h }
    ensures { Run lo words.old (grain_areas image.now h) words.new result }
{
    let all = grains_of(h.capacity, h.grain_size);
    mark_grains(
        &mut *words,
        lo,
        image,
        h.one_is_zero,
        h.packed,
        h.grain_size,
        h.entries_per_table,
        h.directory,
        all,
    )
}

// Marks all areas but grains and, where they stand between grains, primary tables.
fn mark_frame(words: &mut [u64], lo: u64, image: &[u8], h: Header, between: bool) -> bool
    requires { Counted words.old × InFile image.now h }
    ensures { Run lo words.old (beside_grains image.now h between) words.new result }
{
    if mark_front(&mut *words, lo, h) {
        return true;
    }
    if mark_tables_of(&mut *words, lo, image, h, between) {
        return true;
    }
    mark_back(&mut *words, lo, image, h)
}

// Marks all areas of an image.
pub fn mark_all(words: &mut [u64], lo: u64, image: &[u8], h: Header) -> bool
    requires { Counted words.old × InFile image.now h }
    ensures { Run lo words.old (areas image.now h) words.new result }
{
    if mark_frame(&mut *words, lo, image, h, false) {
        return true;
    }
    mark_all_grains(&mut *words, lo, image, h)
}

// Marks the frame of an image, and one stretch for all that stands in it. The tables of a stream stand between its grains.
fn mark_around(words: &mut [u64], lo: u64, image: &[u8], h: Header, stretch: Stretch) -> bool
    requires { Counted words.old × InFile image.now h }
    ensures { Run lo words.old (around image.now h stretch) words.new result }
{
    if mark_frame(&mut *words, lo, image, h, h.footer) {
        return true;
    }
    mark_area(&mut *words, lo, stretch.first, sectors_of(stretch))
}

// What is marked in each window: all areas, or the frame around a stretch.
#[derive(Clone, Copy)]
pub enum Walk {
    All,
    Frame(Stretch),
}

fn mark_walk(words: &mut [u64], lo: u64, image: &[u8], h: Header, walk: Walk) -> bool
    requires { Counted words.old × InFile image.now h }
    ensures { Run lo words.old (walked image.now h walk) words.new result }
{
    match walk {
        Walk::All => mark_all(&mut *words, lo, image, h),
        Walk::Frame(stretch) => mark_around(&mut *words, lo, image, h, stretch),
    }
}

// Whether two areas meet in the window of 8,388,608 sectors from lo on.
fn window_meets(image: &[u8], lo: u64, h: Header, walk: Walk) -> bool
    requires { InFile image.now h }
    ensures { Window (walked image.now h walk) lo result }
{
    let mut words = [0u64; 131072];
    mark_walk(&mut words, lo, image, h, walk)
}

// Whether a sector lies in two areas: window by window, so that memory does not grow with the file.
pub fn windows_meet(image: &[u8], h: Header, walk: Walk) -> bool
    requires { InFile image.now h × (runs_past (file_sectors image.now) (walked image.now h walk) ≡ false) }
    ensures { result ≡ meet (walked image.now h walk) }
{
    let windows = base::ceil_div(file_sectors(image), 8388608);
    (0..windows).any(|w| window_meets(image, 8388608 * w, h, walk))
}
