// The areas of an image but its grains, put into a lent list of words: three words an area.
#![tactic(auto)]

ghost use Rattle.std.specs.Prelude.{◌≡◌, [], ◌∷◌, ◌++◌, ◌+◌, ◌*◌, ◌≤◌, length};
ghost use Rattle.format.specs.Header.{directory_entries_of};
ghost use Rattle.format.specs.Areas.{area, if_there, named, table_areas, redundant_tables};
ghost use Rattle.format.specs.Frame.{told, frame_words};
ghost use Rattle.format.specs.Judged.{Placed};
ghost use Rattle.framing.specs.WordsPut.{WordsPut, head_words, directory_words, front_words, table_words, back_words};

use entries::{before_end, meaning_at};
use format::{Entry, Header};
use sizes::directory_entries;

// Three words, and where the next ones go. Three stores: `copy_from_slice` of an array of them took 1.4 times as long.
pub fn put_words(list: &mut [u64], at: usize, first: u64, second: u64, third: u64) -> usize
    requires { at + 3 ≤ length list.old }
    ensures { WordsPut (first ∷ second ∷ third ∷ []) list.old at list.new result }
{
    list[at] = first;
    list[at + 1] = second;
    list[at + 2] = third;
    at + 3
}

// One area, and where the next one goes.
fn put(list: &mut [u64], at: usize, group: u64, first: u64, sectors: u64) -> usize
    requires { at + length (told group (area first sectors ∷ [])) ≤ length list.old }
    ensures { WordsPut (told group (area first sectors ∷ [])) list.old at list.new result }
{
    put_words(&mut *list, at, group, first, sectors)
}

// An area that an image may have.
fn put_if(list: &mut [u64], at: usize, there: bool, group: u64, first: u64, sectors: u64) -> usize
    requires { at + length (told group (if_there there (area first sectors))) ≤ length list.old }
    ensures { WordsPut (told group (if_there there (area first sectors))) list.old at list.new result }
{
    if there {
        return put(&mut *list, at, group, first, sectors);
    }
    at
}

// The table that a directory entry names, if it names one.
fn put_named(list: &mut [u64], at: usize, group: u64, sectors: u64, entry: Entry) -> usize
    requires { at + length (told group (named (λ e. sectors) entry)) ≤ length list.old }
    ensures { WordsPut (told group (named (λ e. sectors) entry)) list.old at list.new result }
{
    match entry {
        Entry::Absent | Entry::Zero => at,
        Entry::Sector(t) => put(&mut *list, at, group, t, sectors),
    }
}

// The tables that the first n entries of the directory at a sector name.
fn put_tables(
    list: &mut [u64],
    at: usize,
    image: &[u8],
    group: u64,
    one_is_zero: bool,
    sectors: u64,
    directory: u64,
    n: u64,
) -> usize
    requires n_in_bounds { 512 * directory + 4 * n ≤ length image.now }
    requires n_in_bounds_2 { at + length (told group (table_areas image.now one_is_zero sectors directory n)) ≤ length
        list.old }
    ensures { WordsPut (told group (table_areas image.now one_is_zero sectors directory n)) list.old at
        list.new result }
{
    let mut next = at;
    for d in 0..n {
        let entry = meaning_at(image, one_is_zero, directory, d);
        next = put_named(&mut *list, next, group, sectors, entry);
    }
    next
}

// Header and descriptor.
fn put_head(list: &mut [u64], at: usize, h: Header) -> usize
    requires { at + length (head_words h) ≤ length list.old }
    ensures { WordsPut (head_words h) list.old at list.new result }
{
    let next = put(&mut *list, at, 1, 0, h.header_sectors);
    let described = !(h.descriptor == 0) & !(h.descriptor_sectors == 0);
    put_if(
        &mut *list,
        next,
        described,
        2,
        h.descriptor,
        h.descriptor_sectors,
    )
}

// Directory and redundant directory.
fn put_directories(list: &mut [u64], at: usize, h: Header) -> usize
    requires { at + length (directory_words h) ≤ length list.old }
    ensures { WordsPut (directory_words h) list.old at list.new result }
{
    let next = put(&mut *list, at, 3, h.directory, h.directory_sectors);
    put_if(
        &mut *list,
        next,
        !(h.redundant == 0),
        4,
        h.redundant,
        h.directory_sectors,
    )
}

// What stands at fixed places.
fn put_front(list: &mut [u64], at: usize, h: Header) -> usize
    requires { at + length (front_words h) ≤ length list.old }
    ensures { WordsPut (front_words h) list.old at list.new result }
{
    let next = put_head(&mut *list, at, h);
    put_directories(&mut *list, next, h)
}

// The tables of the redundant directory, if there is one.
fn put_copies(list: &mut [u64], at: usize, image: &[u8], h: Header, n: u64) -> usize
    requires placed { Placed image.now h × (n ≡ directory_entries_of h) }
    requires h_in_bounds { at + length (told 6 (redundant_tables image.now h)) ≤ length list.old }
    ensures { WordsPut (told 6 (redundant_tables image.now h)) list.old at list.new result }
{
    if h.redundant == 0 {
        return at;
    }
    put_tables(
        &mut *list,
        at,
        image,
        6,
        h.one_is_zero,
        h.table_sectors,
        h.redundant,
        n,
    )
}

// Every table of either directory.
fn put_tables_of_both(list: &mut [u64], at: usize, image: &[u8], h: Header) -> usize
    requires { Placed image.now h × (at + length (table_words image.now h) ≤ length list.old) }
    ensures { WordsPut (table_words image.now h) list.old at list.new result }
{
    let n = directory_entries(h.capacity, h.entries_per_table, h.grain_size);
    let next = put_tables(
        &mut *list,
        at,
        image,
        5,
        h.one_is_zero,
        h.table_sectors,
        h.directory,
        n,
    );
    put_copies(&mut *list, next, image, h, n)
}

// Footer and last sector, where used.
fn put_back(list: &mut [u64], at: usize, image: &[u8], h: Header) -> usize
    requires { at + length (back_words image.now h) ≤ length list.old }
    ensures { WordsPut (back_words image.now h) list.old at list.new result }
{
    let next = put_if(&mut *list, at, h.footer, 7, before_end(image, 2), 1);
    put_if(&mut *list, next, h.footer, 8, before_end(image, 1), 1)
}

// Tables, footer and last sector.
fn put_rest(list: &mut [u64], at: usize, image: &[u8], h: Header) -> usize
    requires { Placed image.now h
        × (at + length (table_words image.now h ++ back_words image.now h) ≤ length list.old) }
    ensures { WordsPut (table_words image.now h ++ back_words image.now h) list.old at
        list.new result }
{
    let next = put_tables_of_both(&mut *list, at, image, h);
    put_back(&mut *list, next, image, h)
}

// All of it, from the list's start on.
pub fn put_frame(list: &mut [u64], image: &[u8], h: Header) -> usize
    requires { Placed image.now h × (length (frame_words image.now h) ≤ length list.old) }
    ensures { WordsPut (frame_words image.now h) list.old 0 list.new result }
{
    let next = put_front(&mut *list, 0, h);
    put_rest(&mut *list, next, image, h)
}
