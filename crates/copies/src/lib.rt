// Refusal 11: the redundant directory and its tables against the primary ones.
#![tactic(auto)]

ghost use Rattle.std.specs.Prelude.{◌≡◌, false, not, ℕ, ◌+◌, ◌-◌, ◌*◌, ◌≤◌, ◌<◌, min, eqb, length};
ghost use Rattle.format.specs.Entries.{entry_at, meaning_at, any_below};
ghost use Rattle.format.specs.Check.{tables_differ, copy_differs, copies_differ};
ghost use Rattle.format.specs.declared.Entry.TheVariants.{Sector};
ghost use Rattle.format.specs.Judged.{Placed};

use blocks::{block_differs, pair_differs, past_blocks};
use entries::{entry_at, meaning_at};
use format::{Entry, Header};
use sizes::{directory_entries, entries_in_use, grains_of};

// Whether entry k of the tables at sectors t and u differs.
fn differ_at(image: &[u8], t: u64, u: u64, k: u64) -> bool
    requires { (512 * t + 4 * k + 4 ≤ length image.now) × (512 * u + 4 * k + 4 ≤ length image.now) }
    ensures { result ≡ not (eqb (entry_at image.now t k) (entry_at image.now u k)) }
{
    !(entry_at(image, t, k) == entry_at(image, u, k))
}

// The same where less than a block is left: two entries at a time, then the last one, where their number is odd.
fn rest_differs(image: &[u8], t: u64, u: u64, from: u64, n: u64) -> bool
    requires n_in_bounds { (512 * t + 4 * n ≤ length image.now) × (512 * u + 4 * n ≤ length image.now) }
    requires from_le_n { (from ≤ n) × (tables_differ image.now t u from ≡ false) }
    ensures { result ≡ tables_differ image.now t u n }
{
    let pairs = (n - from) / 2;
    (0..pairs).any(|i| pair_differs(image, t, u, from + 2 * i))
        || ((n - from) % 2 == 1 && differ_at(image, t, u, n - 1))
}

// Whether the tables at sectors t and u differ in one of their first n entries: zeros are compared like all others.
fn tables_differ(image: &[u8], t: u64, u: u64, n: u64) -> bool
    requires { (512 * t + 4 * n ≤ length image.now) × (512 * u + 4 * n ≤ length image.now) }
    ensures { result ≡ tables_differ image.now t u n }
{
    let k = past_blocks(0, n, |k| block_differs(image, t, u, k));
    16 <= n - k || rest_differs(image, t, u, k, n)
}

// Two directory entries: absent and zero stand where they stand in the other, and tables are equal in the n entries in use.
fn copy_differs(image: &[u8], n: u64, entry: Entry, copy: Entry) -> bool
    requires by_index { (t : ℕ) → entry ≡ Sector t → 512 * t + 4 * n ≤ length image.now }
    requires by_index_2 { (u : ℕ) → copy ≡ Sector u → 512 * u + 4 * n ≤ length image.now }
    ensures { result ≡ copy_differs image.now n entry copy }
{
    match (entry, copy) {
        (Entry::Absent, Entry::Absent) | (Entry::Zero, Entry::Zero) => false,
        (Entry::Sector(t), Entry::Sector(u)) => tables_differ(image, t, u, n),
        _ => true,
    }
}

// Whether entry d of the two directories, or its tables, differ.
fn entry_differs(image: &[u8], h: Header, grains: u64, d: u64) -> bool
    requires d_in_bounds { (512 * h.directory + 4 * d + 4 ≤ length image.now)
        × (512 * h.redundant + 4 * d + 4 ≤ length image.now) }
    requires entries_per_table_bound { d * h.entries_per_table < grains }
    requires by_index { (t : ℕ) → meaning_at image.now h.one_is_zero h.directory d ≡ Sector t → 512 * t
        + 4 * h.entries_per_table ≤ length image.now }
    requires by_index_2 { (u : ℕ) → meaning_at image.now h.one_is_zero h.redundant d ≡ Sector u → 512 * u
        + 4 * h.entries_per_table ≤ length image.now }
    ensures { result ≡ copy_differs image.now (min h.entries_per_table (grains - d * h.entries_per_table))
        (meaning_at image.now h.one_is_zero h.directory d)
        (meaning_at image.now h.one_is_zero h.redundant d) }
{
    let n = entries_in_use(h.entries_per_table, grains - d * h.entries_per_table);
    let entry = meaning_at(image, h.one_is_zero, h.directory, d);
    let copy = meaning_at(image, h.one_is_zero, h.redundant, d);
    copy_differs(image, n, entry, copy)
}

// The same of the first n entries of the two directories.
fn directories_differ(image: &[u8], h: Header, grains: u64, n: u64) -> bool
    requires n_in_bounds { (512 * h.directory + 4 * n ≤ length image.now) × (512 * h.redundant + 4 * n ≤ length image.now) }
    requires by_index { (d : ℕ) → d < n → d * h.entries_per_table < grains }
    requires by_index_2 { (d t : ℕ) → d < n → meaning_at image.now h.one_is_zero h.directory d ≡ Sector t → 512 * t
        + 4 * h.entries_per_table ≤ length image.now }
    requires by_index_3 { (d u : ℕ) → d < n → meaning_at image.now h.one_is_zero h.redundant d ≡ Sector u → 512 * u
        + 4 * h.entries_per_table ≤ length image.now }
    ensures { result ≡ any_below (λ d. copy_differs image.now
        (min h.entries_per_table (grains - d * h.entries_per_table))
        (meaning_at image.now h.one_is_zero h.directory d)
        (meaning_at image.now h.one_is_zero h.redundant d)) n }
{
    (0..n).any(|d| entry_differs(image, h, grains, d))
}

// All of 11: where there is no redundant directory, nothing is compared.
pub fn copies_differ(image: &[u8], h: Header) -> bool
    requires { Placed image.now h }
    ensures { result ≡ copies_differ image.now h }
{
    if h.redundant == 0 {
        return false;
    }
    let n = directory_entries(h.capacity, h.entries_per_table, h.grain_size);
    let grains = grains_of(h.capacity, h.grain_size);
    directories_differ(image, h, grains, n)
}
