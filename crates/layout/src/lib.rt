// Where the parts of an image that is written stand, by its kind, capacity and grain size, and one grain of it written.
#![tactic(auto)]

ghost use Rattle.std.specs.Prelude.{◌≡◌, ◌≤◌, ◌*◌, ◌-◌, ◌<◌, min, length};
ghost use Rattle.format.specs.Layout.{head_sectors, sectors_per_table, table_count, tables_at, tables_end, sector_v};
ghost use Rattle.format.specs.Judged.{Sized};
ghost use Rattle.base.specs.Bytes.{over};
ghost use Rattle.format.specs.Grains.{clip};

use format::Kind;
use sizes::{directory_entries, directory_sectors};

// The directory's sector. This and the next are no methods: Kind is the crate format's, and a caller wants one of the two.
pub fn head_sectors(kind: Kind) -> u64
    ensures { (result ≡ head_sectors kind) × (result ≤ 4) }
{
    match kind {
        Kind::Kdmv => 1,
        Kind::Cowd => 4,
    }
}

pub fn sectors_per_table(kind: Kind) -> u64
    ensures { (result ≡ sectors_per_table kind) × (1 ≤ result) × (result ≤ 32) }
{
    match kind {
        Kind::Kdmv => 4,
        Kind::Cowd => 32,
    }
}

pub fn tables_of(kind: Kind, capacity: u64, size: u64) -> u64
    requires { Sized capacity size }
    ensures { (result ≡ table_count kind capacity size) × (result ≤ 0x80000000) }
{
    directory_entries(capacity, 128 * sectors_per_table(kind), size)
}

// The sector of the first table.
pub fn tables_at(kind: Kind, capacity: u64, size: u64) -> u64
    requires { Sized capacity size }
    ensures { (result ≡ tables_at kind capacity size) × (result ≤ 0x100000000) }
{
    head_sectors(kind) + directory_sectors(tables_of(kind, capacity, size))
}

// The sector after the tables.
pub fn tables_end(kind: Kind, capacity: u64, size: u64) -> u64
    requires { Sized capacity size }
    ensures { (result ≡ tables_end kind capacity size) × (result ≤ 0x2000000000) }
{
    tables_at(kind, capacity, size) + sectors_per_table(kind) * tables_of(kind, capacity, size)
}

// V, the sector of the first grain.
pub fn sector_v(kind: Kind, capacity: u64, size: u64) -> u64
    requires { Sized capacity size }
    ensures { (result ≡ sector_v kind capacity size) × (result ≤ 0x2000000800) }
{
    let end = tables_end(kind, capacity, size);
    match kind {
        Kind::Kdmv => base::ceil_div(end, size) * size,
        Kind::Cowd => end,
    }
}

// The bytes of grain g that lie below capacity.
fn kept(capacity: u64, size: u64, g: u64) -> usize
    requires { Sized capacity size × (g * size < capacity) }
    ensures { result ≡ min (512 * size) (512 * capacity - 512 * (g * size)) }
{
    let left = capacity - g * size;
    (512 * size.min(left)) as usize
}

// Grain g at the front of `out`, from bytes that `src` begins with. Its sectors past capacity are not copied: they are zero.
pub fn write_grain(out: &mut [u8], src: &[u8], capacity: u64, size: u64, g: u64)
    requires { Sized capacity size × (g * size < capacity)
        × (512 * size ≤ length src.now) × (512 * size ≤ length out.old) }
    ensures { out.new ≡ over out.old 0 (clip capacity size g src.now) }
{
    let keep = kept(capacity, size, g);
    base::copy(&mut *out, 0, src, keep);
    base::fill(&mut *out, keep, (512 * size) as usize - keep);
}
