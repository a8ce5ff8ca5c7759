// The C face's calls over a descriptor's extents.
ghost use Rattle.std.specs.Prelude.{◌≡◌};
ghost use Rattle.descriptor.specs.Records.{descriptor_answer, descriptor_list, find_answer};
ghost use Rattle.disk.specs.Split.{split, split_numbers};

use descriptor::{Described, Extent, Found};
use format::Located;

#[unsafe(no_mangle)]
pub extern "C" fn anhkhovet_descriptor(text: &[u8], extents: &mut [Extent]) -> Described
    ensures { (result ≡ descriptor_answer text.now extents.old)
        × (extents.new ≡ descriptor_list text.now extents.old) }
{
    records::describe(text, extents)
}

#[unsafe(no_mangle)]
pub extern "C" fn anhkhovet_find(extents: &[Extent], sector: u64) -> Found
    ensures { result ≡ find_answer extents.now sector }
{
    records::find(extents, sector)
}

#[unsafe(no_mangle)]
pub extern "C" fn anhkhovet_split(
    text: &[u8],
    files: &[u8],
    lengths: &[u64],
    sector: u64,
) -> Located
    ensures { result ≡ split_numbers (split text.now files.now lengths.now sector) }
{
    split::numbers::split_of(split::split(text, files, lengths, sector))
}
