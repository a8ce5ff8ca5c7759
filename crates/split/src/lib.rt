// A disk cut into several files: the descriptor is read once, the extent of a sector found, and only its own file judged.
#![tactic(auto)]

ghost use Rattle.std.specs.Prelude.{◌≡◌, ◌<◌, ◌≤◌, length};
ghost use Rattle.descriptor.specs.Records.{find_answer};
ghost use Rattle.format.specs.Chain.{lengths_sum, layer_at};
ghost use Rattle.lengths.specs.Laid.{Ends};
ghost use Rattle.disk.specs.Split.{split_lengths_broken, in_extent, at_extent, split};

use descriptor::Extent;
use disk::SplitRefusal;
use format::LayerSource;
use records::holder;

mod extent;
pub mod numbers;

// Where the file of extent k starts.
fn start_of(files: &[u8], lengths: &[u64], k: usize) -> usize
    requires { (lengths_sum lengths.now ≡ length files.now) × (k < length lengths.now) }
    ensures { Ends files.now lengths.now k result }
{
    let mut start: usize = 0;
    for length in &lengths[..k] {
        start += *length as usize;
    }
    start
}

// Sector o of extent i: its file is a part of the lent slice.
fn in_file(
    files: &[u8],
    lengths: &[u64],
    e: Extent,
    i: u64,
    o: u64,
) -> Result<LayerSource, SplitRefusal>
    requires { (lengths_sum lengths.now ≡ length files.now) × (i < length lengths.now) × (o < e.sectors) }
    ensures { result ≡ in_extent (layer_at files.now lengths.now i) e i o }
{
    let k = i as usize;
    let start = start_of(files, lengths, k);
    let end = start + lengths[k] as usize;
    extent::in_extent(&files[start..end], e, i, o)
}

// The extent that holds the sector, or 20.
fn at_extent(
    files: &[u8],
    lengths: &[u64],
    extents: &[Extent],
    sector: u64,
) -> Result<LayerSource, SplitRefusal>
    requires { (lengths_sum lengths.now ≡ length files.now) × (length extents.now ≤ length lengths.now) }
    ensures { result ≡ at_extent files.now lengths.now extents.now sector (find_answer extents.now sector) }
{
    match holder(extents, sector) {
        None => Err(SplitRefusal::SectorPast),
        Some(i) => {
            let e = extents[i];
            in_file(files, lengths, e, i as u64, sector - e.first)
        }
    }
}

// 24: a length for each extent, and no byte too many or too few.
fn lengths_broken(count: usize, files: &[u8], lengths: &[u64]) -> bool
    ensures { result ≡ split_lengths_broken count files.now lengths.now }
{
    let all = lengths::sum_is(lengths, files.len() as u64);
    !(lengths.len() == count) | !all
}

// Where a virtual sector of a disk of several files comes from.
#[tactic(auto, unfolding(disk::specs::Split::split_from, base::specs::Pick::pick))]
pub fn split(
    text: &[u8],
    files: &[u8],
    lengths: &[u64],
    sector: u64,
) -> Result<LayerSource, SplitRefusal>
    ensures { result ≡ split text.now files.now lengths.now sector }
{
    let p = match text::parse(text) {
        Ok(p) => p,
        Err(r) => return Err(SplitRefusal::Unread(r.number(), r.place())),
    };
    if lengths_broken(p.count, files, lengths) {
        return Err(SplitRefusal::Lengths);
    }
    // A text has at most 32 extents, as many as there are records.
    at_extent(files, lengths, &p.records[..p.count.min(32)], sector)
}
