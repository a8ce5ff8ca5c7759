// Mending one directory's tables from the other's: refusals 1 to 8, 40 and 21, then the changes listed and written.
#![tactic(auto)]

ghost use Rattle.std.specs.Prelude.{◌≡◌, false, ℕ, ◌+◌, ◌-◌, ◌*◌, ◌≤◌, ◌<◌, min, length, Ok};
ghost use Rattle.base.specs.Bytes.{over};
ghost use Rattle.format.specs.Geometry.{bytes_at};
ghost use Rattle.format.specs.Header.{judge};
ghost use Rattle.format.specs.Areas.{meet};
ghost use Rattle.format.specs.Mend.{from_good, good_entry, other_entry, over_table, mended, areas_kept_apart, mend_good};
ghost use Rattle.format.specs.Mend.{mend_from};
ghost use Rattle.format.specs.Mend.{mend, mended_image, mended_list};
ghost use Rattle.format.specs.Judged.{Sided};
ghost use Rattle.format.specs.declared.Entry.TheVariants.{Sector};
ghost use Rattle.mend.specs.MendTold.{TwoTables, TwoEntries, MendTold};

use entries::meaning_at;
use format::{Entry, Header, Refusal, Side};
use sizes::{directory_entries, entries_in_use, grains_of};

// The first n entries of the table at sector t over those of the table at sector u.
fn copy_table(image: &mut [u8], t: u64, u: u64, n: u64)
    requires { TwoTables image.old n t u }
    ensures { image.new ≡ over image.old (512 * u) (bytes_at image.old (512 * t) (4 * n)) }
{
    let from = (512 * t) as usize;
    let to = (512 * u) as usize;
    let long = (4 * n) as usize;
    // `copy_within` takes 1.4 times as long where the good table lies below the other: it goes from the end down.
    for i in 0..long {
        let byte = image[from + i];
        image[to + i] = byte;
    }
}

// The same of the tables that two directory entries name: of n entries in use, and of no other.
fn copy_named(image: &mut [u8], n: u64, good: Entry, other: Entry)
    requires { (t u : ℕ) → good ≡ Sector t → other ≡ Sector u → TwoTables image.old n t u }
    ensures { image.new ≡ over_table image.old n good other image.old }
{
    let Entry::Sector(t) = good else { return };
    let Entry::Sector(u) = other else { return };
    copy_table(&mut *image, t, u, n);
}

// The same of entry d of both directories, where the image has so many grains.
fn copy_at(image: &mut [u8], g: Header, all: u64, d: u64)
    requires { TwoEntries image.old g all d }
    ensures { image.new ≡ over_table image.old
        (min g.entries_per_table (all - d * g.entries_per_table)) (good_entry image.old g d)
        (other_entry image.old g d) image.old }
{
    let n = entries_in_use(g.entries_per_table, all - d * g.entries_per_table);
    let good = meaning_at(&*image, g.one_is_zero, g.directory, d);
    let other = meaning_at(&*image, g.one_is_zero, g.redundant, d);
    copy_named(&mut *image, n, good, other)
}

// All tables of the good side over the other side's.
fn copy_tables(image: &mut [u8], g: Header)
    requires { Sided image.old g × (meet (areas_kept_apart image.old g) ≡ false) }
    ensures { image.new ≡ mended image.old g }
{
    let all = grains_of(g.capacity, g.grain_size);
    let n = directory_entries(g.capacity, g.entries_per_table, g.grain_size);
    for d in 0..n {
        copy_at(&mut *image, g, all, d);
    }
}

// 40, then 21; nothing is written before both are judged.
fn mend_good(image: &mut [u8], g: Header, list: &mut [u64]) -> Result<u64, Refusal>
    requires { Sided image.old g }
    ensures { MendTold (mend_good image.old g (length list.old)) image.old g
        list.old result image.new list.new }
{
    if mendable::unmendable(&*image, g) {
        return Err(Refusal::NotMendable);
    }
    let count = changes::count_changes(&*image, g);
    if (list.len() as u64) < 3 * count {
        return Err(Refusal::TooLittleRoom);
    }
    changes::put_changes(&mut *list, &*image, g);
    copy_tables(&mut *image, g);
    Ok(count)
}

// 8, and 40 where there is no redundant directory, then the rest.
fn mend_known(image: &mut [u8], h: Header, side: Side, list: &mut [u64]) -> Result<u64, Refusal>
    requires { judge image.old ≡ Ok h }
    ensures { MendTold (mend_from image.old side (length list.old) (Ok h)) image.old
        (from_good side h) list.old result image.new list.new }
{
    if places::misplaced(&*image, h) {
        return Err(Refusal::Misplaced(places::lowest_misplaced(&*image, h)));
    }
    if h.redundant == 0 {
        return Err(Refusal::NotMendable);
    }
    let g = mendable::from_good(side, h);
    mend_good(&mut *image, g, &mut *list)
}

// Every entry in use of the other side's tables overwritten with the good side's, if the image so changed would be accepted.
// The list tells of each entry that differed, in ascending order: grain, old entry and new entry. On a refusal all is as lent.
pub fn mend(image: &mut [u8], side: Side, changes: &mut [u64]) -> Result<u64, Refusal>
    ensures value { result ≡ mend image.old side (length changes.old) }
    ensures image_after { image.new ≡ mended_image image.old side changes.old }
    ensures changes_after { changes.new ≡ mended_list image.old side changes.old }
{
    let h = header::judge(&*image)?;
    mend_known(&mut *image, h, side, &mut *changes)
}
