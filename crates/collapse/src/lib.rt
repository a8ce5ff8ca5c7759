// Collapse of a lower and an upper image, and the normal form of one, into lent output.
#![tactic(auto)]

ghost use Rattle.std.specs.Prelude.{◌≡◌, ◌||◌, length, Err};
ghost use Rattle.base.specs.Pick.{pick};
ghost use Rattle.format.specs.Check.{check};
ghost use Rattle.format.specs.Collapse.{collapsed, if_accepted, not_collapsible, still_open, written_if_room, normal};
ghost use Rattle.format.specs.Collapse.{normal_output};
ghost use Rattle.format.specs.Collapse.{collapse_from, collapse, collapse_output};
ghost use Rattle.format.specs.declared.Kind.TheVariants.{Kdmv};
ghost use Rattle.format.specs.declared.Refusal.TheVariants.{StillOpen};
ghost use Rattle.layers.specs.TwoLayers.{layered, image_of, length_of, Layers};
ghost use Rattle.accept.specs.AcceptedHeader.{Checked};
ghost use Rattle.collapse.specs.Answered.{collapse_accepted, Answered};

use format::{Header, Kind, Refusal};

pub fn not_collapsible(h: Header) -> bool
    ensures { result ≡ not_collapsible h }
{
    h.packed
}

// Any number but 0.
pub fn still_open(h: Header) -> bool
    ensures { result ≡ still_open h }
{
    !(h.dirty == 0)
}

// 21, or the image of a kind written.
pub fn write_fitted(
    kind: Kind,
    lower: &[u8],
    h: Header,
    upper: &[u8],
    k: Header,
    out: &mut [u8],
) -> Result<u64, Refusal>
    requires { Layers lower.now h upper.now k }
    ensures { Answered (written_if_room (length out.old) (length_of kind lower.now h upper.now k))
        (image_of kind lower.now h upper.now k) out.old result out.new }
{
    let sectors = writer::image_sectors(kind, lower, h, upper, k);
    let long = 512 * sectors;
    if (out.len() as u64) < long {
        return Err(Refusal::TooLittleRoom);
    }
    writer::write_image(&mut *out, kind, sectors, lower, h, upper, k);
    Ok(long)
}

// 27, then what the room allows.
fn write_clean(
    lower: &[u8],
    h: Header,
    upper: &[u8],
    k: Header,
    out: &mut [u8],
) -> Result<u64, Refusal>
    requires { Layers lower.now h upper.now k }
    ensures { Answered (pick (still_open h || still_open k) (Err StillOpen)
        (written_if_room (length out.old) (length_of Kdmv lower.now h upper.now k)))
        (image_of Kdmv lower.now h upper.now k) out.old result out.new }
{
    if still_open(h) | still_open(k) {
        return Err(Refusal::StillOpen);
    }
    write_fitted(Kind::Kdmv, lower, h, upper, k, &mut *out)
}

// Of two accepted images: 23, 22, 27, 21.
fn collapse_layers(
    lower: &[u8],
    h: Header,
    upper: &[u8],
    k: Header,
    out: &mut [u8],
) -> Result<u64, Refusal>
    requires { Checked lower.now h × Checked upper.now k }
    ensures { Answered (collapse_from h k (layered lower.now h upper.now k) (length out.old))
        (image_of Kdmv lower.now h upper.now k) out.old result out.new }
{
    if not_collapsible(h) | not_collapsible(k) {
        return Err(Refusal::NotCollapsible);
    }
    if header::unlike(h, k) {
        return Err(Refusal::LayersDiffer);
    }
    write_clean(lower, h, upper, k, &mut *out)
}

// Where the lower image is accepted: the upper's check, then the rest.
fn collapse_onto(lower: &[u8], h: Header, upper: &[u8], out: &mut [u8]) -> Result<u64, Refusal>
    requires { Checked lower.now h }
    ensures { Answered (if_accepted (check upper.now)
        (collapse_accepted lower.now upper.now (length out.old)))
        (collapsed lower.now upper.now) out.old result out.new }
{
    let k = accept::accepted(upper)?;
    collapse_layers(lower, h, upper, k, &mut *out)
}

// The collapsed image of both: a grain is the upper's unless absent there. Bytes past the result, and all on a refusal, are
// kept.
pub fn collapse(lower: &[u8], upper: &[u8], out: &mut [u8]) -> Result<u64, Refusal>
    ensures value { result ≡ collapse lower.now upper.now (length out.old) }
    ensures out_after { out.new ≡ collapse_output lower.now upper.now out.old }
{
    let h = accept::accepted(lower)?;
    collapse_onto(lower, h, upper, &mut *out)
}

// The same from one image: collapsed onto itself, with one check.
pub fn normal(image: &[u8], out: &mut [u8]) -> Result<u64, Refusal>
    ensures value { result ≡ normal image.now (length out.old) }
    ensures out_after { out.new ≡ normal_output image.now out.old }
{
    let h = accept::accepted(image)?;
    collapse_layers(image, h, image, h, &mut *out)
}
