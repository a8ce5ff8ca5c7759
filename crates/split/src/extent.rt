// A virtual sector of one extent, whose file is a part of the lent slice: 39, 43, 45, the image's own numbers, 38.
ghost use Rattle.std.specs.Prelude.{◌≡◌, ◌<◌};
ghost use Rattle.base.specs.Strings.{same_at};
ghost use Rattle.format.specs.Cowd.{cowd_magic};
ghost use Rattle.disk.specs.Split.{source_in, in_zero, in_plain, looked_up, in_accepted, in_image, by_type, in_extent};

use descriptor::Extent;
use disk::SplitRefusal;
use format::{LayerSource, Refusal, Shape, Source};

// Access and types of a record, as the descriptor's definitions number them.
const NOACCESS: u64 = 3;

const FLAT: u64 = 1;

const VMFS: u64 = 2;

const SPARSE: u64 = 3;

const ZERO: u64 = 5;

fn source_in(i: u64, source: Source) -> Result<LayerSource, SplitRefusal>
    ensures { result ≡ source_in i source }
{
    Ok(LayerSource { layer: i, source })
}

// ZERO has no file: any byte is 45.
fn in_zero(file: &[u8], i: u64) -> Result<LayerSource, SplitRefusal>
    ensures { result ≡ in_zero file.now i }
{
    if file.len() == 0 {
        return source_in(i, Source::Zero);
    }
    Err(SplitRefusal::OtherFile(i))
}

// Plain sectors from the offset on.
fn in_plain(file: &[u8], e: Extent, i: u64, o: u64) -> Result<LayerSource, SplitRefusal>
    requires { o < e.sectors }
    ensures { result ≡ in_plain file.now e i o }
{
    if base::ends_past(e.offset, e.sectors, entries::file_sectors(file)) {
        return Err(SplitRefusal::OtherFile(i));
    }
    source_in(i, Source::Stored(e.offset + o))
}

fn looked_up(i: u64, looked: Result<Source, Refusal>) -> Result<LayerSource, SplitRefusal>
    ensures { result ≡ looked_up i looked }
{
    match looked {
        Ok(source) => source_in(i, source),
        Err(r) => Err(SplitRefusal::Image(i, r)),
    }
}

// An image whose check came to `judged`.
fn in_accepted(
    file: &[u8],
    e: Extent,
    i: u64,
    o: u64,
    judged: Result<Shape, Refusal>,
) -> Result<LayerSource, SplitRefusal>
    ensures { result ≡ in_accepted file.now e i o judged }
{
    match judged {
        Err(refusal) => Err(SplitRefusal::Image(i, refusal)),
        Ok(shape) => {
            if shape.capacity == e.sectors {
                return looked_up(i, lookup::lookup(file, o));
            }
            Err(SplitRefusal::CapacityDiffers(i))
        }
    }
}

// Whether the file begins with COWD's four bytes.
fn begins_cowd(file: &[u8]) -> bool
    ensures { result ≡ same_at file.now 0 cowd_magic }
{
    if file.len() < 4 {
        return false;
    }
    base::same_at(file, 0, b"COWD")
}

// A KDMV image.
fn in_image(file: &[u8], e: Extent, i: u64, o: u64) -> Result<LayerSource, SplitRefusal>
    ensures { result ≡ in_image file.now e i o }
{
    if begins_cowd(file) {
        return Err(SplitRefusal::OtherFile(i));
    }
    in_accepted(file, e, i, o, accept::check(file))
}

// VMFSSPARSE, which is left, is COWD: its line alone is refused.
fn by_type(file: &[u8], e: Extent, i: u64, o: u64) -> Result<LayerSource, SplitRefusal>
    requires { o < e.sectors }
    ensures { result ≡ by_type file.now e i o }
{
    if e.kind == ZERO {
        return in_zero(file, i);
    }
    if (e.kind == FLAT) | (e.kind == VMFS) {
        return in_plain(file, e, i, o);
    }
    if e.kind == SPARSE {
        return in_image(file, e, i, o);
    }
    Err(SplitRefusal::Image(i, Refusal::KindGone))
}

// Sector o of extent i, whose file this is.
pub fn in_extent(file: &[u8], e: Extent, i: u64, o: u64) -> Result<LayerSource, SplitRefusal>
    requires { o < e.sectors }
    ensures { result ≡ in_extent file.now e i o }
{
    if e.access == NOACCESS {
        return Err(SplitRefusal::NoAccess(i));
    }
    by_type(file, e, i, o)
}
