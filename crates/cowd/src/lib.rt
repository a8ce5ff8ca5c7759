// A COWD header, sectors 0 to 3: refusals 1, 43, 3 and 6.
#![tactic(auto)]

ghost use Rattle.std.specs.Prelude.{◌≡◌, ◌≤◌, ◌<◌, length};
ghost use Rattle.base.specs.Numbers.{le_at};
ghost use Rattle.format.specs.Cowd.{cowd_fields, cowd_version_broken, cowd_sizes_broken, count_broken, cowd_fault};
ghost use Rattle.format.specs.Header.{cowd_header, kind_gone, judge_cowd};
ghost use Rattle.format.specs.Judged.{Sized};

use format::{CowdFields, Header, Refusal, Taken};
use sizes::{capacity_broken, directory_entries, directory_sectors, grain_size_broken};

// Four bytes, of which any may be the one that is not 0.
fn dirty(image: &[u8]) -> u64
    requires { 2048 ≤ length image.now }
    ensures { result ≡ le_at image.now 1648 4 }
{
    base::number_at::<4>(image, 1648)
}

fn fields(image: &[u8]) -> CowdFields
    requires { 2048 ≤ length image.now }
    ensures { (result ≡ cowd_fields image.now) × (result.directory_entries < 0x100000000) }
{
    CowdFields {
        version: base::number_at::<4>(image, 4),
        capacity: base::number_at::<4>(image, 12),
        grain_size: base::number_at::<4>(image, 16),
        directory: base::number_at::<4>(image, 20),
        directory_entries: base::number_at::<4>(image, 24),
        dirty: dirty(image),
    }
}

fn version_broken(k: CowdFields) -> bool
    ensures { result ≡ cowd_version_broken k }
{
    !(k.version == 1)
}

fn sizes_broken(k: CowdFields) -> bool
    ensures { result ≡ cowd_sizes_broken k }
{
    capacity_broken(k.capacity) | grain_size_broken(1, k.grain_size)
}

fn count_broken(k: CowdFields) -> bool
    requires { Sized k.capacity k.grain_size }
    ensures { result ≡ count_broken k }
{
    k.directory_entries < directory_entries(k.capacity, 4096, k.grain_size)
}

// The first of 3 and 6 that is broken.
fn fault(k: CowdFields) -> Result<(), Refusal>
    ensures { result ≡ cowd_fault k }
{
    if version_broken(k) {
        return Err(Refusal::Version);
    }
    if sizes_broken(k) {
        return Err(Refusal::Sizes);
    }
    if count_broken(k) {
        return Err(Refusal::Sizes);
    }
    Ok(())
}

fn header(k: CowdFields) -> Header
    requires { k.directory_entries < 0x100000000 }
    ensures { result ≡ cowd_header k }
{
    Header {
        cowd: true,
        capacity: k.capacity,
        grain_size: k.grain_size,
        header_sectors: 4,
        descriptor: 0,
        descriptor_sectors: 0,
        directory: k.directory,
        directory_sectors: directory_sectors(k.directory_entries),
        redundant: 0,
        entries_per_table: 4096,
        table_sectors: 32,
        one_is_zero: false,
        packed: false,
        footer: false,
        dirty: k.dirty,
    }
}

// Only a call that takes either kind takes COWD.
fn kind_gone(taken: Taken) -> bool
    ensures { result ≡ kind_gone taken }
{
    match taken {
        Taken::KdmvAlone => true,
        Taken::Either => false,
    }
}

pub fn judge(taken: Taken, image: &[u8]) -> Result<Header, Refusal>
    ensures { result ≡ judge_cowd taken image.now }
{
    if image.len() < 2048 {
        return Err(Refusal::TooShort);
    }
    if kind_gone(taken) {
        return Err(Refusal::KindGone);
    }
    let k = fields(image);
    fault(k)?;
    Ok(header(k))
}
