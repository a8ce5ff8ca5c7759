// What stands before the grains of an image of either kind, written into lent output. What was written is not read again.
#![tactic(auto)]

ghost use Rattle.std.specs.Prelude.{◌≡◌, ◌+◌, ◌*◌, ◌≤◌, length};
ghost use Rattle.base.specs.Bytes.{over};
ghost use Rattle.base.specs.Rows.{entry_bytes};
ghost use Rattle.format.specs.Layout.{head_sectors, tables_at, tables_end, sector_v, header_bytes, directory_bytes};
ghost use Rattle.format.specs.Layout.{gap_bytes};
ghost use Rattle.format.specs.declared.Kind.TheVariants.{Kdmv, Cowd};
ghost use Rattle.format.specs.Judged.{Sized};
ghost use Rattle.layout.specs.WrittenParts.{header_front, header_back, cowd_front, entries_end, unused, with_front};

use format::Kind;
use layout::{head_sectors, sector_v, sectors_per_table, tables_at, tables_end, tables_of};
use sizes::grains_of;

// Magic to entries per table.
fn put_front(out: &mut [u8], capacity: u64, size: u64)
    requires { 48 ≤ length out.old }
    ensures { out.new ≡ over out.old 0 (header_front capacity size) }
{
    base::copy(&mut *out, 0, b"KDMV", 4);
    base::put_number::<4>(&mut *out, 4, 2);
    base::put_number::<4>(&mut *out, 8, 5);
    base::put_number::<8>(&mut *out, 12, capacity);
    base::put_number::<8>(&mut *out, 20, size);
    base::put_number::<8>(&mut *out, 28, 0);
    base::put_number::<8>(&mut *out, 36, 0);
    base::put_number::<4>(&mut *out, 44, 512);
}

// Redundant directory to padding.
fn put_back(out: &mut [u8], overhead: u64)
    requires { 512 ≤ length out.old }
    ensures { out.new ≡ over out.old 48 (header_back overhead) }
{
    base::put_number::<8>(&mut *out, 48, 0);
    base::put_number::<8>(&mut *out, 56, 1);
    base::put_number::<8>(&mut *out, 64, overhead);
    base::fill(&mut *out, 72, 1);
    base::copy(&mut *out, 73, b"\n \r\n", 4);
    base::fill(&mut *out, 77, 435);
}

pub fn write_kdmv(out: &mut [u8], capacity: u64, size: u64)
    requires { Sized capacity size × (512 ≤ length out.old) }
    ensures { out.new ≡ over out.old 0 (header_bytes Kdmv capacity size 0) }
{
    put_front(&mut *out, capacity, size);
    put_back(&mut *out, sector_v(Kind::Kdmv, capacity, size));
}

// Magic to the file's length in sectors.
fn put_cowd(out: &mut [u8], capacity: u64, size: u64, n: u64, sectors: u64)
    requires { 32 ≤ length out.old }
    ensures { out.new ≡ over out.old 0 (cowd_front capacity size n sectors) }
{
    base::copy(&mut *out, 0, b"COWD", 4);
    base::put_number::<4>(&mut *out, 4, 1);
    base::put_number::<4>(&mut *out, 8, 3);
    base::put_number::<4>(&mut *out, 12, capacity);
    base::put_number::<4>(&mut *out, 16, size);
    base::put_number::<4>(&mut *out, 20, 4);
    base::put_number::<4>(&mut *out, 24, n);
    base::put_number::<4>(&mut *out, 28, sectors);
}

fn write_cowd(out: &mut [u8], capacity: u64, size: u64, sectors: u64)
    requires { Sized capacity size × (2048 ≤ length out.old) }
    ensures { out.new ≡ over out.old 0 (header_bytes Cowd capacity size sectors) }
{
    put_cowd(
        &mut *out,
        capacity,
        size,
        tables_of(Kind::Cowd, capacity, size),
        sectors,
    );
    base::fill(&mut *out, 32, 2016);
}

fn write_header(out: &mut [u8], kind: Kind, capacity: u64, size: u64, sectors: u64)
    requires { Sized capacity size × (512 * head_sectors kind ≤ length out.old) }
    ensures { out.new ≡ over out.old 0 (header_bytes kind capacity size sectors) }
{
    match kind {
        Kind::Kdmv => write_kdmv(&mut *out, capacity, size),
        Kind::Cowd => write_cowd(&mut *out, capacity, size, sectors),
    }
}

// The entries of n tables of `step` sectors, of which the first stands at sector `first`, from byte `from` on.
fn put_directory(out: &mut [u8], from: u64, first: u64, step: u64, n: u64)
    requires { (from + 4 * n ≤ length out.old) × (first ≤ 0x100000000) × (step ≤ 32) × (n ≤ 0x80000000) }
    ensures { out.new ≡ over out.old from (entry_bytes n (λ d. first + step * d)) }
{
    for d in 0..n {
        base::put_number::<4>(&mut *out, (from + 4 * d) as usize, first + step * d);
    }
}

// The directory, unused entries too.
fn write_directory(out: &mut [u8], kind: Kind, capacity: u64, size: u64)
    requires { Sized capacity size × (512 * tables_at kind capacity size ≤ length out.old) }
    ensures { out.new ≡ over out.old (512 * head_sectors kind) (directory_bytes kind capacity size) }
{
    let n = tables_of(kind, capacity, size);
    let first = tables_at(kind, capacity, size);
    let from = 512 * head_sectors(kind);
    let used = from + 4 * n;
    put_directory(&mut *out, from, first, sectors_per_table(kind), n);
    base::fill(&mut *out, used as usize, (512 * first - used) as usize);
}

// The table entries past the last grain.
fn write_unused(out: &mut [u8], kind: Kind, capacity: u64, size: u64)
    requires { Sized capacity size × (512 * tables_end kind capacity size ≤ length out.old) }
    ensures { out.new ≡ over out.old (entries_end kind capacity size) (unused kind capacity size) }
{
    let used = 512 * tables_at(kind, capacity, size) + 4 * grains_of(capacity, size);
    let end = 512 * tables_end(kind, capacity, size);
    base::fill(&mut *out, used as usize, (end - used) as usize);
}

fn write_gap(out: &mut [u8], kind: Kind, capacity: u64, size: u64)
    requires { Sized capacity size × (512 * sector_v kind capacity size ≤ length out.old) }
    ensures { out.new ≡ over out.old (512 * tables_end kind capacity size) (gap_bytes kind capacity size) }
{
    let from = 512 * tables_end(kind, capacity, size);
    let end = 512 * sector_v(kind, capacity, size);
    base::fill(&mut *out, from as usize, (end - from) as usize);
}

// All that stands before the grains of a file of so many sectors, but for the table entries in use.
pub fn write_front(out: &mut [u8], kind: Kind, capacity: u64, size: u64, sectors: u64)
    requires { Sized capacity size × (512 * sector_v kind capacity size ≤ length out.old) }
    ensures { out.new ≡ with_front kind capacity size sectors out.old }
{
    write_header(&mut *out, kind, capacity, size, sectors);
    write_directory(&mut *out, kind, capacity, size);
    write_unused(&mut *out, kind, capacity, size);
    write_gap(&mut *out, kind, capacity, size);
}
