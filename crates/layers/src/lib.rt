// Two layers read as one: where each grain comes from, and how many are stored.
#![tactic(auto)]

ghost use Rattle.std.specs.Prelude.{◌≡◌, ◌≤◌, ◌<◌};
ghost use Rattle.format.specs.Header.{grains_of};
ghost use Rattle.format.specs.Entries.{grain_entry};
ghost use Rattle.format.specs.Grains.{stored_below};
ghost use Rattle.layers.specs.TwoLayers.{from_lower, source_from, stores, layered, Readable, Layers};

use entries::meaning_at;
use format::{Entry, Header};

// Where a grain of two layers comes from: if it is stored, the layer and the sector.
#[derive(Clone, Copy)]
pub enum GrainSource {
    Absent,
    Zero,
    Lower(u64),
    Upper(u64),
}

// What the layer's directory and tables say of grain g.
pub fn entry_of(image: &[u8], h: Header, g: u64) -> Entry
    requires { Readable image.now h × (g < grains_of h) }
    ensures { result ≡ grain_entry image.now h g }
{
    let table = meaning_at(image, h.one_is_zero, h.directory, g / h.entries_per_table);
    match table {
        Entry::Absent => Entry::Absent,
        Entry::Zero => Entry::Zero,
        Entry::Sector(t) => meaning_at(image, h.one_is_zero, t, g % h.entries_per_table),
    }
}

fn from_lower(entry: Entry) -> GrainSource
    ensures { result ≡ from_lower entry }
{
    match entry {
        Entry::Absent => GrainSource::Absent,
        Entry::Zero => GrainSource::Zero,
        Entry::Sector(e) => GrainSource::Lower(e),
    }
}

// Where grain g comes from. The lower layer is asked only where the upper one is absent.
pub fn source_of(lower: &[u8], h: Header, upper: &[u8], k: Header, g: u64) -> GrainSource
    requires { Layers lower.now h upper.now k × (g < grains_of h) }
    ensures { result ≡ source_from (grain_entry lower.now h g) (grain_entry upper.now k g) }
{
    let entry = entry_of(upper, k, g);
    match entry {
        Entry::Absent => from_lower(entry_of(lower, h, g)),
        Entry::Zero => GrainSource::Zero,
        Entry::Sector(e) => GrainSource::Upper(e),
    }
}

fn stores_of(source: GrainSource) -> u64
    ensures { (result ≡ stores source) × (result ≤ 1) }
{
    match source {
        GrainSource::Absent | GrainSource::Zero => 0,
        GrainSource::Lower(_) | GrainSource::Upper(_) => 1,
    }
}

// The stored grains of both layers together.
pub fn count_stored(lower: &[u8], h: Header, upper: &[u8], k: Header) -> u64
    requires { Layers lower.now h upper.now k }
    ensures { (result ≡ stored_below (layered lower.now h upper.now k) (grains_of h)) × (result ≤ grains_of h) }
{
    let all = sizes::grains_of(h.capacity, h.grain_size);
    let mut stored: u64 = 0;
    for g in 0..all {
        stored += stores_of(source_of(lower, h, upper, k, g));
    }
    stored
}
