// The changes that mending makes: counted, and put into a lent list of words, three words a change.
#![tactic(auto)]

ghost use Rattle.std.specs.Prelude.{◌≡◌, [], ◌∷◌, ℕ, ◌+◌, ◌-◌, ◌*◌, ◌≤◌, ◌<◌, length};
ghost use Rattle.base.specs.Bytes.{over};
ghost use Rattle.base.specs.Rows.{rows};
ghost use Rattle.format.specs.Header.{directory_entries_of, grains_of};
ghost use Rattle.format.specs.Mend.{changes};
ghost use Rattle.format.specs.Judged.{Sided};
ghost use Rattle.format.specs.declared.Entry.TheVariants.{Sector};
ghost use Rattle.framing.specs.WordsPut.{WordsPut};
ghost use Rattle.changes.specs.TableChanges.{AlikeUpTo, one_if_differs, differing, differing_in, differing_at, differing_all};
ghost use Rattle.changes.specs.TableChanges.{change_if, change_in, changes_in, changes_at};

use blocks::{block_differs, block_entries, past_blocks};
use entries::{entry_at, meaning_at};
use format::{Entry, Header};
use framing::put_words;
use sizes::{directory_entries, entries_in_use, grains_of};

// Past the blocks from entry `from` on, before entry n, in which the tables at sectors t and u are alike.
fn past_alike(image: &[u8], t: u64, u: u64, from: u64, n: u64) -> u64
    requires { (from ≤ n) × (512 * t + 4 * n ≤ length image.now) × (512 * u + 4 * n ≤ length image.now) }
    ensures { AlikeUpTo image.now t u from n result }
{
    past_blocks(from, n, |k| block_differs(image, t, u, k))
}

fn one_if_differs(old: u64, new: u64) -> u64
    ensures { (result ≡ one_if_differs old new) × (result ≤ 1) }
{
    if old == new {
        return 0;
    }
    1
}

// How many of the entries from `from` on, before `end`, differ.
fn count_block(image: &[u8], t: u64, u: u64, from: u64, end: u64) -> u64
    requires { (from ≤ end) × (end < 0x80000000) × (512 * t + 4 * end ≤ length image.now)
        × (512 * u + 4 * end ≤ length image.now) }
    ensures { (differing image.now t u from + result ≡ differing image.now t u end) × (result ≤ end - from) }
{
    let mut count: u64 = 0;
    for k in from..end {
        count += one_if_differs(entry_at(image, u, k), entry_at(image, t, k));
    }
    count
}

// How many of the first n entries of two tables differ.
fn count_table(image: &[u8], t: u64, u: u64, n: u64) -> u64
    requires { (n < 0x80000000) × (512 * t + 4 * n ≤ length image.now) × (512 * u + 4 * n ≤ length image.now) }
    ensures { (result ≡ differing image.now t u n) × (result ≤ n) }
{
    let mut count: u64 = 0;
    let mut k: u64 = 0;
    // Leaps over blocks that are alike, which no range does.
    while k < n {
        let from = past_alike(image, t, u, k, n);
        let end = from + block_entries(from, n);
        count += count_block(image, t, u, from, end);
        k = end;
    }
    count
}

// The same of the tables that two directory entries name, of which n entries are in use.
fn count_named(image: &[u8], n: u64, good: Entry, other: Entry) -> u64
    requires n_bound { n < 0x80000000 }
    requires by_index { (t : ℕ) → good ≡ Sector t → 512 * t + 4 * n ≤ length image.now }
    requires by_index_2 { (u : ℕ) → other ≡ Sector u → 512 * u + 4 * n ≤ length image.now }
    ensures { (result ≡ differing_in image.now n good other) × (result ≤ n) }
{
    let Entry::Sector(t) = good else { return 0 };
    let Entry::Sector(u) = other else { return 0 };
    count_table(image, t, u, n)
}

// The same of entry d of both directories, where the image has so many grains.
fn count_at(image: &[u8], g: Header, all: u64, d: u64) -> u64
    requires { Sided image.now g × (all ≡ grains_of g) × (d < directory_entries_of g) }
    ensures { (result ≡ differing_at image.now g d) × (result ≤ 4096) }
{
    let n = entries_in_use(g.entries_per_table, all - d * g.entries_per_table);
    let good = meaning_at(image, g.one_is_zero, g.directory, d);
    let other = meaning_at(image, g.one_is_zero, g.redundant, d);
    count_named(image, n, good, other)
}

// How many entries in use differ: so many changes are three times so many words.
pub fn count_changes(image: &[u8], g: Header) -> u64
    requires { Sided image.now g }
    ensures { (3 * result ≡ length (changes image.now g)) × (result ≤ 0x80000000000) }
{
    let all = grains_of(g.capacity, g.grain_size);
    let n = directory_entries(g.capacity, g.entries_per_table, g.grain_size);
    let mut count: u64 = 0;
    for d in 0..n {
        count += count_at(image, g, all, d);
    }
    count
}

// The three words of a change, and where the next ones go. Where the two entries are the same, nothing.
fn put_change(list: &mut [u64], at: usize, grain: u64, old: u64, new: u64) -> usize
    requires { at + length (change_if grain old new) ≤ length list.old }
    ensures { WordsPut (change_if grain old new) list.old at list.new result }
{
    if old == new {
        return at;
    }
    put_words(&mut *list, at, grain, old, new)
}

// The changes of the m entries from `from` on of the tables at sectors t and u, whose first entry is that of grain `first`.
fn put_block(
    list: &mut [u64],
    at: usize,
    image: &[u8],
    first: u64,
    t: u64,
    u: u64,
    from: u64,
    m: u64,
) -> usize
    requires m_bound { (first + (from + m) ≤ 0x100000000) × (512 * t + 4 * (from + m) ≤ length image.now)
        × (512 * u + 4 * (from + m) ≤ length image.now) }
    requires j_in_bounds { at + length (rows m (λ j. change_in image.now first t u (from + j))) ≤ length list.old }
    ensures { WordsPut (rows m (λ j. change_in image.now first t u (from + j))) list.old at
        list.new result }
{
    let mut next = at;
    for j in 0..m {
        let k = from + j;
        let old = entry_at(image, u, k);
        let new = entry_at(image, t, k);
        next = put_change(&mut *list, next, first + k, old, new);
    }
    next
}

// The changes of their first n entries.
fn put_table(list: &mut [u64], at: usize, image: &[u8], first: u64, t: u64, u: u64, n: u64) -> usize
    requires n_bound { (first + n ≤ 0x100000000) × (512 * t + 4 * n ≤ length image.now)
        × (512 * u + 4 * n ≤ length image.now) }
    requires u_in_bounds { at + length (rows n (change_in image.now first t u)) ≤ length list.old }
    ensures { WordsPut (rows n (change_in image.now first t u)) list.old at list.new result }
{
    let mut next = at;
    let mut k: u64 = 0;
    // Leaps as above.
    while k < n {
        let from = past_alike(image, t, u, k, n);
        let m = block_entries(from, n);
        next = put_block(&mut *list, next, image, first, t, u, from, m);
        k = from + m;
    }
    next
}

// The same of the tables that two directory entries name.
fn put_named(
    list: &mut [u64],
    at: usize,
    image: &[u8],
    first: u64,
    n: u64,
    good: Entry,
    other: Entry,
) -> usize
    requires n_bound { first + n ≤ 0x100000000 }
    requires by_index { (t : ℕ) → good ≡ Sector t → 512 * t + 4 * n ≤ length image.now }
    requires by_index_2 { (u : ℕ) → other ≡ Sector u → 512 * u + 4 * n ≤ length image.now }
    requires other_in_bounds { at + length (changes_in image.now first n good other) ≤ length list.old }
    ensures { WordsPut (changes_in image.now first n good other) list.old at list.new result }
{
    let Entry::Sector(t) = good else { return at };
    let Entry::Sector(u) = other else { return at };
    put_table(&mut *list, at, image, first, t, u, n)
}

// The same of entry d of both directories, where the image has so many grains.
fn put_at(list: &mut [u64], at: usize, image: &[u8], g: Header, all: u64, d: u64) -> usize
    requires sided { Sided image.now g × (all ≡ grains_of g) × (d < directory_entries_of g) }
    requires d_in_bounds { at + length (changes_at image.now g d) ≤ length list.old }
    ensures { WordsPut (changes_at image.now g d) list.old at list.new result }
{
    let first = d * g.entries_per_table;
    let n = entries_in_use(g.entries_per_table, all - first);
    let good = meaning_at(image, g.one_is_zero, g.directory, d);
    let other = meaning_at(image, g.one_is_zero, g.redundant, d);
    put_named(&mut *list, at, image, first, n, good, other)
}

// All changes, from the list's start on: in ascending order of the grains, since directory and tables are.
pub fn put_changes(list: &mut [u64], image: &[u8], g: Header)
    requires { Sided image.now g × (length (changes image.now g) ≤ length list.old) }
    ensures { list.new ≡ over list.old 0 (changes image.now g) }
{
    let all = grains_of(g.capacity, g.grain_size);
    let n = directory_entries(g.capacity, g.entries_per_table, g.grain_size);
    let mut next = 0;
    for d in 0..n {
        next = put_at(&mut *list, next, image, g, all, d);
    }
}
