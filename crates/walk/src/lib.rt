// The walk over the blocks of a stream: markers are read, a payload never.
#![tactic(auto)]

ghost use Rattle.std.specs.Prelude.{◌≡◌, ◌≤◌, ◌<◌};
ghost use Rattle.format.specs.Geometry.{file_sectors};
ghost use Rattle.format.specs.Stream.{overhead, if_whole, out_of_order, stream_grain, stream_other, block_at};
ghost use Rattle.format.specs.declared.closing.Block.TheVariants.{Other};
ghost use Rattle.walk.specs.Walked.{Walkable, Next, next_in, Tallied};

use entries::{file_sectors, grain_sectors, marker_size};
use format::Header;
use format::closing::Block;

// The next grain that is kept: its marker's sector, and how many sectors it takes.
#[derive(Clone, Copy)]
pub struct NextGrain {
    pub number: u64,
    pub sector: u64,
    pub sectors: u64,
}

// The kept sectors and grains, and the directory entries that have grains.
#[derive(Clone, Copy)]
pub struct Counted {
    pub sectors: u64,
    pub grains: u64,
    pub tables: u64,
}

// A table or directory of so many sectors, marker and all, if it is wholly there.
fn other_block(image: &[u8], p: u64, sectors: u64) -> Block
    ensures { result ≡ if_whole image.now p sectors (Other sectors) }
{
    if base::ends_past(p, sectors, file_sectors(image)) {
        return Block::Stop;
    }
    Block::Other(sectors)
}

fn stream_other(image: &[u8], h: Header, p: u64) -> Block
    requires { Walkable h × (p < file_sectors image.now) }
    ensures { result ≡ stream_other image.now h p }
{
    let kind = base::number_at::<4>(image, (512 * p + 12) as usize);
    if kind == 1 {
        return other_block(image, p, 5);
    }
    if kind == 2 {
        return other_block(image, p, 1 + h.directory_sectors);
    }
    Block::Stop
}

// A first sector that is not a multiple of grain size, not below capacity or not above the last grain's.
fn out_of_order(h: Header, next: u64, first: u64) -> bool
    requires { Walkable h }
    ensures { result ≡ out_of_order h next first }
{
    !(first % h.grain_size == 0) | ((h.capacity <= first) | (first / h.grain_size < next))
}

fn stream_grain(image: &[u8], h: Header, p: u64, next: u64) -> Block
    requires { Walkable h × (p < file_sectors image.now) }
    ensures { result ≡ stream_grain image.now h p next }
{
    let whole = grain_sectors(image, true, h.grain_size, p);
    if base::ends_past(p, whole, file_sectors(image)) {
        return Block::Stop;
    }
    let first = base::number_at::<8>(image, (512 * p) as usize);
    if out_of_order(h, next, first) {
        return Block::Stop;
    }
    Block::Grain {
        number: first / h.grain_size,
        sectors: whole,
    }
}

fn block_at(image: &[u8], h: Header, p: u64, next: u64) -> Block
    requires { Walkable h }
    ensures { result ≡ block_at image.now h p next }
{
    if file_sectors(image) <= p {
        return Block::Stop;
    }
    if marker_size(image, p) == 0 {
        return stream_other(image, h, p);
    }
    stream_grain(image, h, p, next)
}

// Tables and directories between grains are stepped over.
pub fn next_grain(image: &[u8], h: Header, p: u64, next: u64) -> Option<NextGrain>
    requires { Walkable h }
    ensures { Next image.now h p next result }
{
    let mut at = p;
    loop {
        let block = block_at(image, h, at, next);
        match block {
            Block::Stop => return None,
            Block::Other(sectors) => at += sectors,
            Block::Grain { number, sectors } => {
                return Some(NextGrain {
                    number,
                    sector: at,
                    sectors,
                });
            }
        }
    }
}

// Where the walk starts.
pub fn overhead(image: &[u8]) -> u64
    requires { 1 ≤ file_sectors image.now }
    ensures { result ≡ overhead image.now }
{
    base::number_at::<8>(image, 64)
}

// Whether there is a next grain, and it has its entry in the table of directory entry d.
pub fn next_in(next: Option<NextGrain>, d: u64) -> bool
    ensures { result ≡ next_in next d }
{
    next.is_some_and(|c| c.number / 512 == d)
}

// All that is kept.
pub fn count(image: &[u8], h: Header) -> Counted
    requires { Walkable h × (1 ≤ file_sectors image.now) × (overhead image.now ≤ file_sectors image.now) }
    ensures { Tallied image.now h result }
{
    let mut sectors = overhead(image);
    let mut next = next_grain(image, h, sectors, 0);
    let mut grains: u64 = 0;
    let mut tables: u64 = 0;
    while let Some(c) = next {
        sectors = c.sector + c.sectors;
        next = next_grain(image, h, sectors, c.number + 1);
        grains += 1;
        tables += u64::from(!next_in(next, c.number / 512));
    }
    Counted {
        sectors,
        grains,
        tables,
    }
}
