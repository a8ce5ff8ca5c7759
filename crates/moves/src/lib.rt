// Moves of images from COWD to KDMV and back, into lent output: the only calls that take COWD.
#![tactic(auto)]

ghost use Rattle.std.specs.Prelude.{◌≡◌, length, Err};
ghost use Rattle.base.specs.Pick.{pick};
ghost use Rattle.format.specs.Grains.{grain_map};
ghost use Rattle.format.specs.Collapse.{written_if_room};
ghost use Rattle.format.specs.Moves.{laid_as, laid_length_as, not_taken, says_zero, any_zero, zero_lost, not_movable};
ghost use Rattle.format.specs.Moves.{move_from, move_to};
ghost use Rattle.format.specs.Moves.{move_output, to_kdmv, to_kdmv_output, to_cowd, to_cowd_output};
ghost use Rattle.format.specs.declared.Refusal.TheVariants.{NotMovable};
ghost use Rattle.layers.specs.TwoLayers.{Readable};
ghost use Rattle.accept.specs.AcceptedHeader.{Checked};
ghost use Rattle.collapse.specs.Answered.{Answered};

use format::{Entry, Header, Kind, Refusal, Taken};

// 23: an image of that kind already, or a compressed one.
fn not_taken(kind: Kind, h: Header) -> bool
    ensures { result ≡ not_taken kind h }
{
    match kind {
        Kind::Kdmv => !h.cowd | h.packed,
        Kind::Cowd => h.cowd | h.packed,
    }
}

fn says_zero(entry: Entry) -> bool
    ensures { result ≡ says_zero entry }
{
    match entry {
        Entry::Absent => false,
        Entry::Zero => true,
        Entry::Sector(_) => false,
    }
}

fn any_zero(image: &[u8], h: Header) -> bool
    requires { Readable image.now h }
    ensures { result ≡ any_zero image.now h }
{
    let all = sizes::grains_of(h.capacity, h.grain_size);
    for g in 0..all {
        if says_zero(layers::entry_of(image, h, g)) {
            return true;
        }
    }
    false
}

// A COWD table has no entry for a zero grain.
fn zero_lost(kind: Kind, image: &[u8], h: Header) -> bool
    requires { Readable image.now h }
    ensures { result ≡ zero_lost kind image.now h }
{
    match kind {
        Kind::Kdmv => false,
        Kind::Cowd => any_zero(image, h),
    }
}

fn not_movable(kind: Kind, image: &[u8], h: Header) -> bool
    requires { Readable image.now h }
    ensures { result ≡ not_movable kind image.now h }
{
    if h.grain_size < 8 {
        return true;
    }
    zero_lost(kind, image, h)
}

// 44, then what the room allows: the image collapsed onto itself, as an image of the kind.
fn move_sized(kind: Kind, image: &[u8], h: Header, out: &mut [u8]) -> Result<u64, Refusal>
    requires { Readable image.now h }
    ensures { Answered (pick (not_movable kind image.now h) (Err NotMovable)
        (written_if_room (length out.old) (laid_length_as kind h (grain_map image.now h))))
        (laid_as kind h (grain_map image.now h)) out.old result out.new }
{
    if not_movable(kind, image, h) {
        return Err(Refusal::NotMovable);
    }
    collapse::write_fitted(kind, image, h, image, h, &mut *out)
}

// Of an accepted image: 23, 27, 44, 21.
fn move_accepted(kind: Kind, image: &[u8], h: Header, out: &mut [u8]) -> Result<u64, Refusal>
    requires { Checked image.now h }
    ensures { Answered (move_from kind image.now h (grain_map image.now h) (length out.old))
        (laid_as kind h (grain_map image.now h)) out.old result out.new }
{
    if not_taken(kind, h) {
        return Err(Refusal::NotCollapsible);
    }
    if collapse::still_open(h) {
        return Err(Refusal::StillOpen);
    }
    move_sized(kind, image, h, &mut *out)
}

// The normal form of an image as one of the kind. Bytes past the result, and all on a refusal, are kept.
fn move_to(kind: Kind, image: &[u8], out: &mut [u8]) -> Result<u64, Refusal>
    ensures value { result ≡ move_to kind image.now (length out.old) }
    ensures out_after { out.new ≡ move_output kind image.now out.old }
{
    let h = accept::accepted_of(Taken::Either, image)?;
    move_accepted(kind, image, h, &mut *out)
}

pub fn to_kdmv(image: &[u8], out: &mut [u8]) -> Result<u64, Refusal>
    ensures value { result ≡ to_kdmv image.now (length out.old) }
    ensures out_after { out.new ≡ to_kdmv_output image.now out.old }
{
    move_to(Kind::Kdmv, image, &mut *out)
}

pub fn to_cowd(image: &[u8], out: &mut [u8]) -> Result<u64, Refusal>
    ensures value { result ≡ to_cowd image.now (length out.old) }
    ensures out_after { out.new ≡ to_cowd_output image.now out.old }
{
    move_to(Kind::Cowd, image, &mut *out)
}
