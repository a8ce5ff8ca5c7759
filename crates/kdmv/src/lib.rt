// A KDMV header, sector 0: refusals 1 and 3 to 7.
#![tactic(auto)]

ghost use Rattle.std.specs.Prelude.{◌≡◌, ◌≤◌, length};
ghost use Rattle.base.specs.Numbers.{le_at};
ghost use Rattle.format.specs.Kdmv.{kdmv_fields, version_broken, newline_broken, other_flags, flags_broken, at_end};
ghost use Rattle.format.specs.Kdmv.{kdmv_sizes_broken};
ghost use Rattle.format.specs.Kdmv.{kdmv_fault};
ghost use Rattle.format.specs.Header.{kdmv_one_is_zero, kdmv_header, directory_of, with_footer, judge_kdmv, judge_kdmv_start};
ghost use Rattle.format.specs.Judged.{Sized};

use footer::{ALL_ONES, footer_broken, footer_directory};
use format::{Header, KdmvFields, Refusal};
use sizes::{capacity_broken, directory_entries, directory_sectors, grain_size_broken};

// Flags of a KDMV header.
const NEWLINE_TEST: u64 = 0x1;

const USE_REDUNDANT: u64 = 0x2;

const ZEROED_ENTRIES: u64 = 0x4;

const COMPRESSED: u64 = 0x10000;

const MARKERS: u64 = 0x20000;

// Byte 72.
fn dirty(image: &[u8]) -> u64
    requires { 512 ≤ length image.now }
    ensures { result ≡ le_at image.now 72 1 }
{
    base::number_at::<1>(image, 72)
}

#[inline(always)]
fn fields(image: &[u8]) -> KdmvFields
    requires { 512 ≤ length image.now }
    ensures { result ≡ kdmv_fields image.now }
{
    KdmvFields {
        version: base::number_at::<4>(image, 4),
        flags: base::number_at::<4>(image, 8),
        capacity: base::number_at::<8>(image, 12),
        grain_size: base::number_at::<8>(image, 20),
        descriptor: base::number_at::<8>(image, 28),
        descriptor_sectors: base::number_at::<8>(image, 36),
        entries_per_table: base::number_at::<4>(image, 44),
        redundant: base::number_at::<8>(image, 48),
        directory: base::number_at::<8>(image, 56),
        dirty: dirty(image),
        newline: base::same_at(image, 73, b"\n \r\n"),
        compression: base::number_at::<2>(image, 77),
    }
}

fn version_broken(k: KdmvFields) -> bool
    ensures { result ≡ version_broken k }
{
    (k.version == 0) | (3 < k.version)
}

fn newline_broken(k: KdmvFields) -> bool
    ensures { result ≡ newline_broken k }
{
    (k.flags / NEWLINE_TEST % 2 == 1) & !k.newline
}

// Whether a bit is set that is none of the five flags.
fn other_flags(f: u64) -> bool
    ensures { result ≡ other_flags f }
{
    !(f == NEWLINE_TEST * (f / NEWLINE_TEST % 2)
        + USE_REDUNDANT * (f / USE_REDUNDANT % 2)
        + ZEROED_ENTRIES * (f / ZEROED_ENTRIES % 2)
        + COMPRESSED * (f / COMPRESSED % 2)
        + MARKERS * (f / MARKERS % 2))
}

fn flags_broken(k: KdmvFields) -> bool
    ensures { result ≡ flags_broken k }
{
    let f = k.flags;
    let packed = f / COMPRESSED % 2 == 1;
    let markers = f / MARKERS % 2 == 1;
    other_flags(f)
        | (!(k.compression == f / COMPRESSED % 2)
            | ((markers & !packed)
                | (((f / USE_REDUNDANT % 2 == 1) & (k.redundant == 0))
                    | (((f / ZEROED_ENTRIES % 2 == 1) & (k.version == 1))
                        | ((k.directory == ALL_ONES) & !markers)))))
}

fn sizes_broken(k: KdmvFields) -> bool
    ensures { result ≡ kdmv_sizes_broken k }
{
    capacity_broken(k.capacity)
        | (grain_size_broken(8, k.grain_size) | !(k.entries_per_table == 512))
}

// The first of 3 to 6 that is broken.
fn fault(k: KdmvFields) -> Result<(), Refusal>
    ensures { result ≡ kdmv_fault k }
{
    if version_broken(k) {
        return Err(Refusal::Version);
    }
    if newline_broken(k) {
        return Err(Refusal::Newline);
    }
    if flags_broken(k) {
        return Err(Refusal::Flags);
    }
    if sizes_broken(k) {
        return Err(Refusal::Sizes);
    }
    Ok(())
}

// Entry 1 means zeros only where both version and flag say so: else a damaged table would read as a blank disk.
fn one_is_zero(k: KdmvFields) -> bool
    ensures { result ≡ kdmv_one_is_zero k }
{
    ((k.version == 2) | (k.version == 3)) & (k.flags / ZEROED_ENTRIES % 2 == 1)
}

fn header(k: KdmvFields, directory: u64) -> Header
    requires { Sized k.capacity k.grain_size }
    ensures { result ≡ kdmv_header k directory }
{
    Header {
        cowd: false,
        capacity: k.capacity,
        grain_size: k.grain_size,
        header_sectors: 1,
        descriptor: k.descriptor,
        descriptor_sectors: k.descriptor_sectors,
        directory,
        directory_sectors: directory_sectors(directory_entries(k.capacity, 512, k.grain_size)),
        redundant: k.redundant,
        entries_per_table: 512,
        table_sectors: 4,
        one_is_zero: one_is_zero(k),
        packed: k.flags / COMPRESSED % 2 == 1,
        footer: k.directory == ALL_ONES,
        dirty: k.dirty,
    }
}

// 7 is judged where the directory is at the end; then the footer's directory sector counts.
fn with_footer(image: &[u8], k: KdmvFields) -> Result<Header, Refusal>
    requires { Sized k.capacity k.grain_size }
    ensures { result ≡ with_footer image.now (at_end k) (kdmv_header k (directory_of image.now k)) }
{
    if k.directory == ALL_ONES {
        if footer_broken(image) {
            return Err(Refusal::Footer);
        }
        return Ok(header(k, footer_directory(image)));
    }
    Ok(header(k, k.directory))
}

// A KDMV image: 3 to 6, then 7 where the directory is at the end.
pub fn judge(image: &[u8]) -> Result<Header, Refusal>
    ensures { result ≡ judge_kdmv image.now }
{
    if image.len() < 512 {
        return Err(Refusal::TooShort);
    }
    let k = fields(image);
    fault(k)?;
    with_footer(image, k)
}

// A start has no footer yet: 3 to 6 alone, and the directory sector as sector 0 has it.
pub fn judge_start(image: &[u8]) -> Result<Header, Refusal>
    ensures { result ≡ judge_kdmv_start image.now }
{
    if image.len() < 512 {
        return Err(Refusal::TooShort);
    }
    let k = fields(image);
    fault(k)?;
    Ok(header(k, k.directory))
}
