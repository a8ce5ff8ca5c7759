// The full check in a list that the caller lends, one window from sector 0 on: refusals 1 to 12, with 21 before 12.
#![tactic(auto)]

ghost use Rattle.std.specs.Prelude.{◌≡◌, length};
ghost use Rattle.format.specs.Areas.{areas};
ghost use Rattle.format.specs.CheckIn.{words_needed, check_in, list_after_check};
ghost use Rattle.overlap.specs.InFile.{InFile};
ghost use Rattle.format.specs.Judged.{Unmarked};
ghost use Rattle.format.specs.declared.Taken.TheVariants.{KdmvAlone};
ghost use Rattle.accept_in.specs.Lent.{Told, answer_of, unmarked_by, Lent};

use format::{Header, MarkedAnswer, Refusal, Shape, Taken};

// A word for every 64 file sectors, rounded up.
fn words_needed(image: &[u8]) -> usize
    ensures { result ≡ words_needed image.now }
{
    (image.len() / 512 + 63) / 64
}

// Whether two areas meet, and how many sectors were marked before that.
#[derive(Clone, Copy)]
struct Marks {
    met: bool,
    marked: u64,
}

// Marks all areas in words that may hold anything, counts the sectors and leaves zeros.
fn mark_areas(words: &mut [u64], image: &[u8], h: Header) -> Marks
    requires { InFile image.now h × (length words.old ≡ words_needed image.now) }
    ensures { Told (areas image.now h) words.old words.new result.met result.marked }
{
    counts::clear(&mut *words);
    let met = overlap::mark_all(&mut *words, 0, image, h);
    let marked = counts::empty(&mut *words);
    Marks { met, marked }
}

// 12, or acceptance.
fn answered(h: Header, met: bool, marked: u64) -> MarkedAnswer
    ensures { result ≡ answer_of h met marked }
{
    if met {
        return MarkedAnswer {
            checked: Err(Refusal::SharedSector),
            marked,
        };
    }
    MarkedAnswer {
        checked: Ok(Shape {
            capacity: h.capacity,
            grain_size: h.grain_size,
        }),
        marked,
    }
}

// A refusal before 12: nothing is marked.
fn unmarked_by(refusal: Refusal) -> MarkedAnswer
    ensures { result ≡ unmarked_by refusal }
{
    MarkedAnswer {
        checked: Err(refusal),
        marked: 0,
    }
}

// 21, then 12.
fn check_apart_in(image: &[u8], h: Header, list: &mut [u64]) -> MarkedAnswer
    requires { Unmarked KdmvAlone image.now h }
    ensures { Lent image.now list.old result list.new }
{
    let needed = words_needed(image);
    if list.len() < needed {
        return unmarked_by(Refusal::TooLittleRoom);
    }
    let marks = mark_areas(&mut list[0..needed], image, h);
    answered(h, marks.met, marks.marked)
}

// The check's answer, but 21 in place of acceptance or 12 where the list is too short, and the number of sectors marked. After
// acceptance and 12 the needed part of the list is zero, on other refusals it is kept; the rest is never written.
pub fn check_in(image: &[u8], list: &mut [u64]) -> MarkedAnswer
    ensures value { result ≡ check_in image.now (length list.old) }
    ensures list_after { list.new ≡ list_after_check image.now list.old }
{
    let left = accept::unmarked_of(Taken::KdmvAlone, image);
    match left {
        Err(r) => unmarked_by(r),
        Ok(h) => check_apart_in(image, h, &mut *list),
    }
}
