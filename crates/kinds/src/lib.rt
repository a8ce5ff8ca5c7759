// The grains of each kind of an image, counted over directory and table entries. A directory entry that names no table counts
// its grains at once, so that an empty disk costs a walk over its directory.
#![tactic(auto)]

ghost use Rattle.std.specs.Prelude.{◌≡◌, ℕ, ◌+◌, ◌*◌, ◌≤◌, ◌<◌, length};
ghost use Rattle.format.specs.Header.{grains_of};
ghost use Rattle.format.specs.Entries.{in_table, meaning_at, grain_entry};
ghost use Rattle.format.specs.Judged.{Placed};
ghost use Rattle.format.specs.declared.Entry.TheVariants.{Sector};
ghost use Rattle.kinds.specs.Counting.{none, with_many, with_entries, all_of};

use entries::meaning_at;
use format::{Entry, Header};
use sizes::{directory_entries, entries_in_use, grains_of};

// Grains by what their entries mean.
#[derive(Clone, Copy)]
pub struct Kinds {
    pub absent: u64,
    pub zero: u64,
    pub named: u64,
}

// n grains more, all of one entry.
fn with_many(kinds: Kinds, entry: Entry, n: u64) -> Kinds
    requires { all_of kinds + n ≤ 0x80000000 }
    ensures { result ≡ with_many kinds entry n }
{
    match entry {
        Entry::Absent => Kinds {
            absent: kinds.absent + n,
            ..kinds
        },
        Entry::Zero => Kinds {
            zero: kinds.zero + n,
            ..kinds
        },
        Entry::Sector(_) => Kinds {
            named: kinds.named + n,
            ..kinds
        },
    }
}

// The first n entries of the table at sector t.
fn with_table(image: &[u8], one_is_zero: bool, t: u64, n: u64, kinds: Kinds) -> Kinds
    requires { (512 * t + 4 * n ≤ length image.now) × (all_of kinds + n ≤ 0x80000000) }
    ensures { result ≡ with_entries kinds (meaning_at image.now one_is_zero t) n }
{
    let mut counted = kinds;
    for k in 0..n {
        counted = with_many(counted, meaning_at(image, one_is_zero, t, k), 1);
    }
    counted
}

// The n grains of a directory entry.
fn with_grains(image: &[u8], one_is_zero: bool, table: Entry, n: u64, kinds: Kinds) -> Kinds
    requires { ((t : ℕ) → table ≡ Sector t → 512 * t + 4 * n ≤ length image.now) × (all_of kinds + n ≤ 0x80000000) }
    ensures { result ≡ with_entries kinds (λ k. in_table image.now one_is_zero k table) n }
{
    match table {
        Entry::Absent => with_many(kinds, table, n),
        Entry::Zero => with_many(kinds, table, n),
        Entry::Sector(t) => with_table(image, one_is_zero, t, n, kinds),
    }
}

pub fn grains_by_kind(image: &[u8], h: Header) -> Kinds
    requires { Placed image.now h }
    ensures { result ≡ with_entries none (grain_entry image.now h) (grains_of h) }
{
    let all = grains_of(h.capacity, h.grain_size);
    let tables = directory_entries(h.capacity, h.entries_per_table, h.grain_size);
    let mut kinds = Kinds {
        absent: 0,
        zero: 0,
        named: 0,
    };
    for d in 0..tables {
        let table = meaning_at(image, h.one_is_zero, h.directory, d);
        let used = entries_in_use(h.entries_per_table, all - d * h.entries_per_table);
        kinds = with_grains(image, h.one_is_zero, table, used, kinds);
    }
    kinds
}
