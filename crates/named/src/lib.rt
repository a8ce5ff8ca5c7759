// Marking what the entries of directories and tables name.
#![tactic(auto)]

ghost use Rattle.std.specs.Prelude.{◌≡◌, false, ◌+◌, ◌*◌, ◌≤◌, length};
ghost use Rattle.base.specs.Rows.{rows};
ghost use Rattle.format.specs.Geometry.{file_sectors};
ghost use Rattle.format.specs.Entries.{entry_at};
ghost use Rattle.format.specs.Areas.{table_areas, runs_past};
ghost use Rattle.window.specs.Run.{Run, Counted};
ghost use Rattle.named.specs.Named.{least_sector, entry_area, entry_areas, table_grains, grain_named};
ghost use Rattle.named.specs.Listed.{Listed, Grained};

use blocks::{block_entries, past_zeros};
use entries::{entry_at, grain_sectors};
use sizes::entries_in_use;
use window::{Marks, Taker};

// The lowest entry that is a sector.
pub fn least_sector(one_is_zero: bool) -> u64
    ensures { result ≡ least_sector one_is_zero }
{
    if one_is_zero {
        return 2;
    }
    1
}

// Takes what entry k of the directory or table at sector t names.
fn take_entry<T: Taker>(
    taker: &mut T,
    image: &[u8],
    least: u64,
    packed: bool,
    size: u64,
    t: u64,
    k: u64,
) -> bool
    requires ready { T.ready taker.old × (512 * t + 4 * k + 4 ≤ length image.now) × (1 ≤ size) }
    requires k_value { runs_past (file_sectors image.now) (entry_area image.now least packed size t k) ≡ false }
    ensures { T.ready taker.new × T.takes taker.old (entry_area image.now least packed size t k) taker.new result }
{
    let e = entry_at(image, t, k);
    if e < least {
        return false;
    }
    let sectors = grain_sectors(image, packed, size, e);
    taker.take(e, sectors)
}

// Takes what the `count` entries from `from` on name.
fn take_run<T: Taker>(
    taker: &mut T,
    image: &[u8],
    least: u64,
    packed: bool,
    size: u64,
    t: u64,
    from: u64,
    count: u64,
) -> bool
    requires { T.ready taker.old × Listed image.now least packed size t (from + count) }
    ensures { T.ready taker.new × T.takes taker.old (rows count (λ i. entry_area image.now least packed size t (from + i)))
        taker.new result }
{
    for i in 0..count {
        if take_entry(&mut *taker, image, least, packed, size, t, from + i) {
            return true;
        }
    }
    false
}

// Takes what the first n entries name, a block at a time: blocks of zeros name nothing.
pub fn take_entries<T: Taker>(
    taker: &mut T,
    image: &[u8],
    least: u64,
    packed: bool,
    size: u64,
    t: u64,
    n: u64,
) -> bool
    requires { T.ready taker.old × (1 ≤ least) × Listed image.now least packed size t n }
    ensures { T.ready taker.new × T.takes taker.old (entry_areas image.now least packed size t n) taker.new result }
{
    let mut k: u64 = 0;
    // Leaps over blocks of zeros, which no range does.
    while k < n {
        let from = past_zeros(image, t, k, n);
        let count = block_entries(from, n);
        if take_run(&mut *taker, image, least, packed, size, t, from, count) {
            return true;
        }
        k = from + count;
    }
    false
}

// Marks the tables that the first n entries of a directory name.
pub fn mark_tables(
    words: &mut [u64],
    lo: u64,
    image: &[u8],
    one_is_zero: bool,
    sectors: u64,
    directory: u64,
    n: u64,
) -> bool
    requires { Counted words.old × Listed image.now (least_sector one_is_zero) false sectors directory n }
    ensures { Run lo words.old (table_areas image.now one_is_zero sectors directory n) words.new
        result }
{
    let least = least_sector(one_is_zero);
    let mut marks = Marks {
        words: &mut *words,
        lo,
    };
    take_entries(&mut marks, image, least, false, sectors, directory, n)
}

// Marks the first n grains of directory entry d.
fn mark_table_grains(
    words: &mut [u64],
    lo: u64,
    image: &[u8],
    least: u64,
    packed: bool,
    size: u64,
    directory: u64,
    d: u64,
    n: u64,
) -> bool
    requires counted { Counted words.old × (1 ≤ least) × (512 * directory + 4 * d + 4 ≤ length image.now) }
    requires listed { least ≤ entry_at image.now directory d → Listed image.now least packed size
        (entry_at image.now directory d) n }
    ensures { Run lo words.old (table_grains image.now least packed size directory d n)
        words.new result }
{
    let t = entry_at(image, directory, d);
    if t < least {
        return false;
    }
    let mut marks = Marks {
        words: &mut *words,
        lo,
    };
    take_entries(&mut marks, image, least, packed, size, t, n)
}

// Marks all grains, table by table. Entries past the last grain are not read.
pub fn mark_grains(
    words: &mut [u64],
    lo: u64,
    image: &[u8],
    one_is_zero: bool,
    packed: bool,
    size: u64,
    per_table: u64,
    directory: u64,
    all: u64,
) -> bool
    requires { Counted words.old × Grained image.now one_is_zero packed size per_table directory all }
    ensures { Run lo words.old (rows all (grain_named image.now one_is_zero packed size per_table
        directory)) words.new result }
{
    let least = least_sector(one_is_zero);
    for d in 0..base::ceil_div(all, per_table) {
        if mark_table_grains(
            &mut *words,
            lo,
            image,
            least,
            packed,
            size,
            directory,
            d,
            entries_in_use(per_table, all - d * per_table),
        ) {
            return true;
        }
    }
    false
}
