// Refusal 12, in one pass over the entries where what they name stands in order, else window by window.
#![tactic(auto)]

ghost use Rattle.std.specs.Prelude.{◌≡◌};
ghost use Rattle.format.specs.Areas.{areas, meet};
ghost use Rattle.overlap.specs.InFile.{InFile};
ghost use Rattle.order.specs.InOrder.{grain_stretch, in_order};

use ascent::{Stretch, ascend_grains};
use format::Header;
use overlap::{Walk, windows_meet};
use sizes::grains_of;

// The stretch of all grains, and of the tables between them in a stream.
fn grain_stretch(image: &[u8], h: Header) -> Stretch
    requires { InFile image.now h }
    ensures { result ≡ grain_stretch image.now h }
{
    let all = grains_of(h.capacity, h.grain_size);
    ascend_grains(
        image,
        h.one_is_zero,
        h.packed,
        h.grain_size,
        h.entries_per_table,
        h.directory,
        all,
        h.footer,
        h.table_sectors,
    )
}

// Whether grains stand in ascending order, and all else apart from them and from each other.
fn in_order(image: &[u8], h: Header) -> bool
    requires { InFile image.now h }
    ensures { result ≡ in_order image.now h }
{
    let stretch = grain_stretch(image, h);
    if stretch.falls {
        return false;
    }
    !windows_meet(image, h, Walk::Frame(stretch))
}

// Whether a sector lies in two areas. No grain is marked where the order shows that none does.
pub fn areas_meet(image: &[u8], h: Header) -> bool
    requires { InFile image.now h }
    ensures { result ≡ meet (areas image.now h) }
{
    if in_order(image, h) {
        return false;
    }
    windows_meet(image, h, Walk::All)
}
