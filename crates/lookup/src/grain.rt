// The grain that a table entry names: refusals 9 and 10, and its source.
ghost use Rattle.std.specs.Prelude.{◌≡◌, ◌+◌, ◌*◌, ◌≤◌, ◌<◌, length};
ghost use Rattle.format.specs.Source.{grain_source, lookup_grain, lookup_entry};
ghost use Rattle.format.specs.Judged.{Sound};

use entries::{bad_marker, grain_past, marker_size};
use format::{Entry, Header, Refusal, Source};

// Sector o of the grain at sector e.
fn grain_source(image: &[u8], packed: bool, o: u64, e: u64) -> Source
    requires { (512 * e + 12 ≤ length image.now) × (o < 2048) }
    ensures { result ≡ grain_source image.now packed o e }
{
    if packed {
        return Source::Packed {
            marker: e,
            size: marker_size(image, e),
            offset: o,
        };
    }
    Source::Stored(e + o)
}

fn lookup_grain(image: &[u8], h: Header, g: u64, o: u64, e: u64) -> Result<Source, Refusal>
    requires { Sound h × (g ≤ 0x80000000) × (o < h.grain_size) }
    ensures { result ≡ lookup_grain image.now h g o e }
{
    if grain_past(image, h.packed, h.grain_size, e) {
        return Err(Refusal::GrainPast(g));
    }
    if bad_marker(image, h.packed, h.grain_size, g, e) {
        return Err(Refusal::Marker(g));
    }
    Ok(grain_source(image, h.packed, o, e))
}

// What a table entry says of sector o of grain g.
pub fn lookup_entry(
    image: &[u8],
    h: Header,
    g: u64,
    o: u64,
    entry: Entry,
) -> Result<Source, Refusal>
    requires { Sound h × (g ≤ 0x80000000) × (o < h.grain_size) }
    ensures { result ≡ lookup_entry image.now h g o entry }
{
    match entry {
        Entry::Absent => Ok(Source::Absent),
        Entry::Zero => Ok(Source::Zero),
        Entry::Sector(e) => lookup_grain(image, h, g, o, e),
    }
}
