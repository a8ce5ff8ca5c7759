// The C face: each public call, with its answer in document 01's numbers. A slice is a pointer and a count.
#![tactic(auto)]

ghost use Rattle.std.specs.Prelude.{◌≡◌, length};
ghost use Rattle.format.specs.Header.{judge};
ghost use Rattle.format.specs.Check.{check};
ghost use Rattle.format.specs.CheckIn.{check_in, list_after_check};
ghost use Rattle.format.specs.Frame.{frame, frame_list};
ghost use Rattle.format.specs.Source.{sector_lookup, answer_part};
ghost use Rattle.format.specs.Way.{lookup_steps};
ghost use Rattle.format.specs.Chain.{chain_lookup};
ghost use Rattle.format.specs.Collapse.{normal, normal_output, collapse, collapse_output};
ghost use Rattle.format.specs.Moves.{to_kdmv, to_kdmv_output, to_cowd, to_cowd_output};
ghost use Rattle.format.specs.Profile.{profile};
ghost use Rattle.format.specs.Close.{close, close_output};
ghost use Rattle.format.specs.Answers.{header_numbers, verdict, marked_numbers, located, chained, written, framed};
ghost use Rattle.format.specs.Answers.{closed_numbers};

use format::closing::Closed;
use format::steps::Steps;
use format::{Framed, Head, Located, Marked, Part, Verdict, Written};

mod extents;
mod lists;

#[unsafe(no_mangle)]
pub extern "C" fn anhkhovet_check(image: &[u8]) -> Verdict
    ensures { result ≡ verdict (check image.now) }
{
    Verdict::from(accept::check(image))
}

#[unsafe(no_mangle)]
pub extern "C" fn anhkhovet_check_in(image: &[u8], list: &mut [u64]) -> Marked
    ensures value { result ≡ marked_numbers (check_in image.now (length list.old)) }
    ensures list_after { list.new ≡ list_after_check image.now list.old }
{
    Marked::from(accept_in::check_in(image, &mut *list))
}

#[unsafe(no_mangle)]
pub extern "C" fn anhkhovet_header(image: &[u8]) -> Head
    ensures { result ≡ header_numbers (judge image.now) }
{
    Head::from(header::judge(image))
}

#[unsafe(no_mangle)]
pub extern "C" fn anhkhovet_lookup(image: &[u8], sector: u64) -> Located
    ensures { result ≡ located (sector_lookup image.now sector) }
{
    Located::from(lookup::lookup(image, sector))
}

#[unsafe(no_mangle)]
pub extern "C" fn anhkhovet_steps(image: &[u8], sector: u64) -> Steps
    ensures { result ≡ lookup_steps image.now sector }
{
    Steps::new(way::way(image, sector), lookup::lookup(image, sector))
}

#[unsafe(no_mangle)]
pub extern "C" fn anhkhovet_chain(layers: &[u8], lengths: &[u64], sector: u64) -> Located
    ensures { result ≡ chained (chain_lookup layers.now lengths.now sector) }
{
    Located::from(chain::chain(layers, lengths, sector))
}

#[unsafe(no_mangle)]
pub extern "C" fn anhkhovet_read(image: &[u8], sector: u64) -> Part
    ensures { result ≡ answer_part (sector_lookup image.now sector) }
{
    reader::part(image, sector)
}

#[unsafe(no_mangle)]
pub extern "C" fn anhkhovet_frame(image: &[u8], list: &mut [u64]) -> Framed
    ensures value { result ≡ framed (frame image.now (length list.old)) }
    ensures list_after { list.new ≡ frame_list image.now list.old }
{
    Framed::from(frame::frame(image, &mut *list))
}

#[unsafe(no_mangle)]
pub extern "C" fn anhkhovet_normal(image: &[u8], out: &mut [u8]) -> Written
    ensures value { result ≡ written (normal image.now (length out.old)) }
    ensures out_after { out.new ≡ normal_output image.now out.old }
{
    Written::from(collapse::normal(image, &mut *out))
}

#[unsafe(no_mangle)]
pub extern "C" fn anhkhovet_collapse(lower: &[u8], upper: &[u8], out: &mut [u8]) -> Written
    ensures value { result ≡ written (collapse lower.now upper.now (length out.old)) }
    ensures out_after { out.new ≡ collapse_output lower.now upper.now out.old }
{
    Written::from(collapse::collapse(lower, upper, &mut *out))
}

#[unsafe(no_mangle)]
pub extern "C" fn anhkhovet_to_kdmv(image: &[u8], out: &mut [u8]) -> Written
    ensures value { result ≡ written (to_kdmv image.now (length out.old)) }
    ensures out_after { out.new ≡ to_kdmv_output image.now out.old }
{
    Written::from(moves::to_kdmv(image, &mut *out))
}

#[unsafe(no_mangle)]
pub extern "C" fn anhkhovet_to_cowd(image: &[u8], out: &mut [u8]) -> Written
    ensures value { result ≡ written (to_cowd image.now (length out.old)) }
    ensures out_after { out.new ≡ to_cowd_output image.now out.old }
{
    Written::from(moves::to_cowd(image, &mut *out))
}

#[unsafe(no_mangle)]
pub extern "C" fn anhkhovet_profile(image: &[u8]) -> Verdict
    ensures { result ≡ verdict (profile image.now) }
{
    Verdict::from(profile::profile(image))
}

#[unsafe(no_mangle)]
pub extern "C" fn anhkhovet_close(image: &[u8], out: &mut [u8]) -> Closed
    ensures value { result ≡ closed_numbers (close image.now (length out.old)) }
    ensures out_after { out.new ≡ close_output image.now out.old }
{
    Closed::from(close::close(image, &mut *out))
}
