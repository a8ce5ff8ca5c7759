// The frame: the areas of an image but its grains, counted, and told in a lent list that has room for them.
#![tactic(auto)]

ghost use Rattle.std.specs.Prelude.{◌≡◌, [], ℕ, ◌+◌, ◌*◌, ◌≤◌, length, Ok};
ghost use Rattle.format.specs.Header.{directory_entries_of, judge};
ghost use Rattle.format.specs.Areas.{table_areas, redundant_tables};
ghost use Rattle.format.specs.Frame.{frame_words, frame_count, listed_if_room, frame_from, frame, frame_list};
ghost use Rattle.format.specs.Judged.{Placed};
ghost use Rattle.frame.specs.FrameTold.{FrameTold};

use entries::meaning_at;
use format::{Entry, Header, Refusal};
use sizes::directory_entries;

// How many tables the first n entries of the directory at a sector name, whatever sectors a table takes.
fn tables_named(image: &[u8], one_is_zero: bool, directory: u64, n: u64) -> u64
    requires { 512 * directory + 4 * n ≤ length image.now }
    ensures { ((sectors : ℕ) → result ≡ length (table_areas image.now one_is_zero sectors directory n)) × (result ≤ n) }
{
    let mut count: u64 = 0;
    for d in 0..n {
        if let Entry::Sector(_) = meaning_at(image, one_is_zero, directory, d) {
            count += 1;
        }
    }
    count
}

// The tables of the redundant directory, if there is one.
fn copies_named(image: &[u8], h: Header, n: u64) -> u64
    requires { Placed image.now h × (n ≡ directory_entries_of h) }
    ensures { (result ≡ length (redundant_tables image.now h)) × (result ≤ n) }
{
    if h.redundant == 0 {
        return 0;
    }
    tables_named(image, h.one_is_zero, h.redundant, n)
}

// How many areas the frame has.
fn count_areas(image: &[u8], h: Header) -> u64
    requires { Placed image.now h }
    ensures { (result ≡ frame_count image.now h) × (result ≤ 0x200000000) }
{
    let n = directory_entries(h.capacity, h.entries_per_table, h.grain_size);
    let described = u64::from(!(h.descriptor == 0) & !(h.descriptor_sectors == 0));
    let second = u64::from(!(h.redundant == 0));
    let tables = tables_named(image, h.one_is_zero, h.directory, n);
    let copies = copies_named(image, h, n);
    let ends = u64::from(h.footer);
    2 + described + second + tables + copies + 2 * ends
}

// 21, or the areas listed.
fn list_areas(image: &[u8], h: Header, list: &mut [u64]) -> Result<u64, Refusal>
    requires { Placed image.now h }
    ensures { FrameTold (listed_if_room (length list.old) (frame_count image.now h))
        (frame_words image.now h) list.old result list.new }
{
    let count = count_areas(image, h);
    if (list.len() as u64) < 3 * count {
        return Err(Refusal::TooLittleRoom);
    }
    framing::put_frame(&mut *list, image, h);
    Ok(count)
}

// 8, then the rest.
fn frame_in(image: &[u8], h: Header, list: &mut [u64]) -> Result<u64, Refusal>
    requires { judge image.now ≡ Ok h }
    ensures { FrameTold (frame_from image.now (length list.old) (Ok h))
        (frame_words image.now h) list.old result list.new }
{
    if places::misplaced(image, h) {
        return Err(Refusal::Misplaced(places::lowest_misplaced(image, h)));
    }
    list_areas(image, h, &mut *list)
}

// The areas of an image but its grains, three words each from the list's start on; or the first of 1 to 8 that it breaks, or
// 21. Words past them, and all on a refusal, are kept.
pub fn frame(image: &[u8], list: &mut [u64]) -> Result<u64, Refusal>
    ensures value { result ≡ frame image.now (length list.old) }
    ensures list_after { list.new ≡ frame_list image.now list.old }
{
    let h = header::judge(image)?;
    frame_in(image, h, &mut *list)
}
