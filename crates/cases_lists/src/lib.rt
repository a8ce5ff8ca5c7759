// The calls on one image that take a list, and the survey, each told in a line.
#![tactic(auto)]

ghost use Rattle.std.specs.Prelude.{◌≤◌, length};

use format::{Framed, Marked, Mended, Side, Surveyed};
use programs::Words;
use std::io;

// Number, place, count, and the words of the list, which hold 170 before the call: it shows which were not written.
pub fn frame(rt: &impl Print, image: &[u8], room: usize) -> io::Result<()> {
    let mut words = [170; 96];
    let list = &mut words[..room.min(96)];
    let told = Framed::from(frame::frame(image, &mut *list));
    println!(rt;
        "frame {} {} {} {}",
        told.number,
        told.place,
        told.count,
        Words(list)
    )
}

// Number, place, capacity, grain size, the sectors marked, and the words of the list, which hold 170 before the call: old bits
// must not count.
pub fn check_in(rt: &impl Print, image: &[u8], room: usize) -> io::Result<()> {
    let mut words = [170; 96];
    let list = &mut words[..room.min(96)];
    let told = Marked::from(accept_in::check_in(image, &mut *list));
    println!(rt;
        "check_in {} {} {} {} {} {}",
        told.number,
        told.place,
        told.capacity,
        told.grain_size,
        told.marked,
        Words(list)
    )
}

// Number, place, count, the digest of the image after the call, and the words of the list.
// The first of the lengths names the good side, the second is the list's room; each word holds 170 before the call.
pub fn mend(rt: &impl Print, image: &[u8], lengths: &[u8], out: &mut [u8]) -> io::Result<()> {
    let numbers = programs::numbers_of(lengths);
    let mut words = [170; 96];
    let list = &mut words[..(numbers[1] as usize).min(96)];
    let n = image.len().min(out.len());
    let mended = &mut out[..n];
    mended.copy_from_slice(&image[..n]);
    let side = Side::from(numbers[0]);
    let told = Mended::from(mend::mend(&mut *mended, side, &mut *list));
    println!(rt;
        "mend {} {} {} {} {}",
        told.number,
        told.place,
        told.count,
        programs::digest(mended),
        Words(list)
    )
}

// Number, place and totals, and the words of both lists.
fn survey_in(
    rt: &impl Print,
    images: &[u8],
    lengths: &[u64],
    rows: &mut [u64],
    tally: &mut [u64],
) -> io::Result<()> {
    let told = Surveyed::from(survey::survey(images, lengths, &mut *rows, &mut *tally));
    println!(rt;
        "survey {} {} {} {} {} {} {}",
        told.number,
        told.place,
        told.stored,
        told.zero,
        told.absent,
        told.packed,
        Words(rows)
    )?;
    println!(rt; "tally {}", Words(tally))
}

// Both lists hold 170 in each word before the call. A room of 1,000 more is one with a tally that is a word too short.
pub fn survey(rt: &impl Print, images: &[u8], lengths: &[u8], room: usize) -> io::Result<()>
    requires { length lengths.now ≤ 136 }
{
    let numbers = programs::numbers_of(lengths);
    let mut rows = [170; 128];
    let mut tally = [170; 66];
    let (room, words) = if room < 1000 {
        (room, 66)
    } else {
        (room - 1000, 62)
    };
    survey_in(
        rt,
        images,
        &numbers[..lengths.len() / 8],
        &mut rows[..room.min(128)],
        &mut tally[..words],
    )
}
