// The image of two layers, of either kind, written grain by grain.
#![tactic(auto)]

ghost use Rattle.std.specs.Prelude.{◌≡◌, ◌+◌, ◌*◌, ◌≤◌, length, drop};
ghost use Rattle.base.specs.Bytes.{over};
ghost use Rattle.format.specs.Grains.{clip};
ghost use Rattle.format.specs.Grains.Grain.{stored};
ghost use Rattle.format.specs.Header.{grains_of};
ghost use Rattle.format.specs.Layout.{tables_at, sector_v};
ghost use Rattle.layout.specs.WrittenParts.{with_grains};
ghost use Rattle.layers.specs.TwoLayers.{grain_at, layered, image_of, sectors_of, length_of, Layers, Standing};
ghost use Rattle.writer.specs.Put.{Ready, Put};

use format::{Header, Kind};
use layers::{GrainSource, count_stored, source_of};
use layout::{sector_v, tables_at};
use sizes::grains_of;

// The result's length in sectors.
pub fn image_sectors(kind: Kind, lower: &[u8], h: Header, upper: &[u8], k: Header) -> u64
    requires { Layers lower.now h upper.now k }
    ensures { (result ≡ sectors_of kind lower.now h upper.now k) × (result ≤ 0x4000000000) }
{
    let stored = count_stored(lower, h, upper, k);
    sector_v(kind, h.capacity, h.grain_size) + stored * h.grain_size
}

// Grain g, which stands at sector e of its layer. The output is lent from the grain's place on.
fn put_stored(
    out: &mut [u8],
    at: usize,
    next: u64,
    image: &[u8],
    e: u64,
    capacity: u64,
    size: u64,
    g: u64,
) -> u64
    requires ready { Ready (stored (clip capacity size g (drop (512 * e) image.now))) capacity size g at next
        (length out.old) }
    requires size_in_bounds { 512 * e + 512 * size ≤ length image.now }
    ensures { Put (stored (clip capacity size g (drop (512 * e) image.now))) size at next result out.old
        out.new }
{
    base::put_number::<4>(&mut *out, at, next);
    let here = (512 * next) as usize;
    let from = (512 * e) as usize;
    layout::write_grain(&mut out[here..], &image[from..], capacity, size, g);
    next + size
}

// Grain g: its entry to byte `at`, and its bytes, if it is stored, to sector `next`. Where the next one goes.
fn put_grain(
    out: &mut [u8],
    at: usize,
    next: u64,
    lower: &[u8],
    upper: &[u8],
    source: GrainSource,
    capacity: u64,
    size: u64,
    g: u64,
) -> u64
    requires ready { Ready (grain_at lower.now upper.now capacity size g source) capacity size g at next (length out.old) }
    requires standing { Standing lower.now upper.now size source }
    ensures { Put (grain_at lower.now upper.now capacity size g source) size at next result out.old
        out.new }
{
    match source {
        GrainSource::Absent => {
            base::put_number::<4>(&mut *out, at, 0);
            next
        }
        GrainSource::Zero => {
            base::put_number::<4>(&mut *out, at, 1);
            next
        }
        GrainSource::Lower(e) => put_stored(&mut *out, at, next, lower, e, capacity, size, g),
        GrainSource::Upper(e) => put_stored(&mut *out, at, next, upper, e, capacity, size, g),
    }
}

// Entries and bytes, grain by grain.
fn write_grains(out: &mut [u8], kind: Kind, lower: &[u8], h: Header, upper: &[u8], k: Header)
    requires { Layers lower.now h upper.now k × (length_of kind lower.now h upper.now k ≤ length out.old) }
    ensures { out.new ≡ with_grains (512 * tables_at kind h.capacity h.grain_size)
        (sector_v kind h.capacity h.grain_size) h.grain_size
        (layered lower.now h upper.now k) (grains_of h) out.old }
{
    let all = grains_of(h.capacity, h.grain_size);
    let table = 512 * tables_at(kind, h.capacity, h.grain_size);
    let mut next = sector_v(kind, h.capacity, h.grain_size);
    for g in 0..all {
        let source = source_of(lower, h, upper, k, g);
        next = put_grain(
            &mut *out,
            (table + 4 * g) as usize,
            next,
            lower,
            upper,
            source,
            h.capacity,
            h.grain_size,
            g,
        );
    }
}

// The whole image, of so many sectors, over the front of the output.
pub fn write_image(
    out: &mut [u8],
    kind: Kind,
    sectors: u64,
    lower: &[u8],
    h: Header,
    upper: &[u8],
    k: Header,
)
    requires layers { Layers lower.now h upper.now k × (length_of kind lower.now h upper.now k ≤ length out.old) }
    requires sectors_value { sectors ≡ sectors_of kind lower.now h upper.now k }
    ensures { out.new ≡ over out.old 0 (image_of kind lower.now h upper.now k) }
{
    front::write_front(&mut *out, kind, h.capacity, h.grain_size, sectors);
    write_grains(&mut *out, kind, lower, h, upper, k);
}
