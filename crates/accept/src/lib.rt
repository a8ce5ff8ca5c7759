// The full check: refusals 1 to 12, with 43 after 2, each over the whole image.
#![tactic(auto)]

ghost use Rattle.std.specs.Prelude.{◌≡◌};
ghost use Rattle.format.specs.Header.{header_of};
ghost use Rattle.format.specs.Check.{lowest_bad_marker, unless_grain, check_apart, check_copies, check_grains, check_layout};
ghost use Rattle.format.specs.Check.{check_of, check};
ghost use Rattle.format.specs.declared.Refusal.TheVariants.{Marker};
ghost use Rattle.format.specs.Judged.{Sound, Placed, Filed};
ghost use Rattle.overlap.specs.InFile.{InFile};
ghost use Rattle.accept.specs.AcceptedHeader.{accepted_header};
ghost use Rattle.accept.specs.Unmarked.{unmarked_of};

use format::{Header, Refusal, Shape, Taken};

// 11: the header, where the copies are alike.
fn judge_copies(image: &[u8], h: Header) -> Result<Header, Refusal>
    requires { Filed image.now h }
    ensures { result ≡ unmarked_of (check_copies image.now h) h }
{
    if copies::copies_differ(image, h) {
        return Err(Refusal::CopiesDiffer);
    }
    Ok(h)
}

// 10 and 11.
fn judge_markers(image: &[u8], h: Header) -> Result<Header, Refusal>
    requires { Filed image.now h }
    ensures { result ≡ unmarked_of (unless_grain (lowest_bad_marker image.now h) Marker
        (check_copies image.now h)) h }
{
    let lowest = grains::lowest_bad_marker(image, h);
    match lowest {
        Some(g) => Err(Refusal::Marker(g)),
        None => judge_copies(image, h),
    }
}

// 9 to 11.
fn judge_grains(image: &[u8], h: Header) -> Result<Header, Refusal>
    requires { Placed image.now h }
    ensures { result ≡ unmarked_of (check_grains image.now h) h }
{
    let lowest = grains::lowest_past(image, h);
    match lowest {
        Some(g) => Err(Refusal::GrainPast(g)),
        None => judge_markers(image, h),
    }
}

// 8 to 11.
fn judge_layout(image: &[u8], h: Header) -> Result<Header, Refusal>
    requires { Sound h }
    ensures { result ≡ unmarked_of (check_layout image.now h) h }
{
    if places::misplaced(image, h) {
        return Err(Refusal::Misplaced(places::lowest_misplaced(image, h)));
    }
    judge_grains(image, h)
}

// Refusals 1 to 11: the header of an image of which nothing but 12 is left to judge.
pub fn unmarked_of(taken: Taken, image: &[u8]) -> Result<Header, Refusal>
    ensures { result ≡ unmarked_of (check_of taken image.now) (header_of image.now) }
{
    let h = header::judge_of(taken, image)?;
    judge_layout(image, h)
}

// 12, the last of them.
fn check_apart(image: &[u8], h: Header) -> Result<Shape, Refusal>
    requires { InFile image.now h }
    ensures { result ≡ check_apart image.now h }
{
    if order::areas_meet(image, h) {
        return Err(Refusal::SharedSector);
    }
    Ok(Shape {
        capacity: h.capacity,
        grain_size: h.grain_size,
    })
}

// Accepted, with capacity and grain size, exactly where the image meets every layout rule; else the first refusal.
fn check_of(taken: Taken, image: &[u8]) -> Result<Shape, Refusal>
    ensures { result ≡ check_of taken image.now }
{
    let h = unmarked_of(taken, image)?;
    check_apart(image, h)
}

// The header of an accepted image, or why it is refused.
pub fn accepted_of(taken: Taken, image: &[u8]) -> Result<Header, Refusal>
    ensures { result ≡ accepted_header (check_of taken image.now) (header_of image.now) }
{
    check_of(taken, image)?;
    header::judge_of(taken, image)
}

// For every call but the moves: COWD is refused.
pub fn check(image: &[u8]) -> Result<Shape, Refusal>
    ensures { result ≡ check image.now }
{
    check_of(Taken::KdmvAlone, image)
}

pub fn accepted(image: &[u8]) -> Result<Header, Refusal>
    ensures { result ≡ accepted_header (check image.now) (header_of image.now) }
{
    accepted_of(Taken::KdmvAlone, image)
}
