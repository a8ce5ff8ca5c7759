// The survey: of each image a row, then the totals and the tally. Nothing is written before both lists are long enough.
#![tactic(auto)]

ghost use Rattle.std.specs.Prelude.{◌≡◌, ◌+◌, ◌*◌, ◌/◌, ◌≤◌, ◌<◌, length, get_or, Ok};
ghost use Rattle.base.specs.Bytes.{over};
ghost use Rattle.base.specs.Rows.{tabulate};
ghost use Rattle.format.specs.Answers.{number, place};
ghost use Rattle.format.specs.AnswerParts.{accepted_as};
ghost use Rattle.format.specs.Chain.{layer_at};
ghost use Rattle.format.specs.Survey.{count_of, row_from, row_of, row_at, row_words, rows_below, add_row, totals_below};
ghost use Rattle.format.specs.Survey.{surveyed_if_room, survey};
ghost use Rattle.lengths.specs.Laid.{Laid, Ends};
ghost use Rattle.survey.specs.Small.{SmallRow, SmallTotals};
ghost use Rattle.survey.specs.SurveyTold.{SurveyTold};
ghost use Rattle.accept.specs.AcceptedHeader.{Checked};

use format::{Header, Refusal, Row, Totals};

// The row of an image that is refused.
fn refused_row(refusal: Refusal) -> Row
    ensures { result ≡ record { stored = 0; zero = 0; absent = 0; packed = 0; number = number refusal; place = place refusal } }
{
    Row {
        stored: 0,
        zero: 0,
        absent: 0,
        packed: 0,
        number: refusal.number(),
        place: refusal.place(),
    }
}

// The row of an image that is accepted, with its header.
fn accepted_row(image: &[u8], h: Header) -> Row
    requires { Checked image.now h }
    ensures { (result ≡ row_from image.now h (accepted_as 0 0)) × SmallRow result }
{
    let kinds = kinds::grains_by_kind(image, h);
    if h.packed {
        return Row {
            stored: 0,
            zero: kinds.zero,
            absent: kinds.absent,
            packed: kinds.named,
            number: 0,
            place: 0,
        };
    }
    Row {
        stored: kinds.named,
        zero: kinds.zero,
        absent: kinds.absent,
        packed: 0,
        number: 0,
        place: 0,
    }
}

fn row_of(image: &[u8]) -> Row
    ensures { (result ≡ row_of image.now) × SmallRow result }
{
    let judged = accept::accepted(image);
    match judged {
        Err(refusal) => refused_row(refusal),
        Ok(h) => accepted_row(image, h),
    }
}

// One row.
fn put_row(list: &mut [u64], at: usize, row: Row)
    requires { at + length (row_words row) ≤ length list.old }
    ensures { list.new ≡ over list.old at (row_words row) }
{
    list[at] = row.stored;
    list[at + 1] = row.zero;
    list[at + 2] = row.absent;
    list[at + 3] = row.packed;
    list[at + 4] = row.number;
    list[at + 5] = row.place;
}

// The row of image k, which starts at byte `start`.
fn row_at(images: &[u8], lengths: &[u64], k: usize, start: usize) -> Row
    requires { Laid 1024 images.now lengths.now × Ends images.now lengths.now k start × (k < length lengths.now) }
    ensures { (result ≡ row_at images.now lengths.now k) × SmallRow result }
{
    let end = start + lengths[k] as usize;
    row_of(&images[start..end])
}

fn with_row(totals: Totals, row: Row, k: usize) -> Totals
    requires { SmallRow row × SmallTotals k totals × (k < 1024) }
    ensures { (result ≡ add_row totals row) × SmallTotals (k + 1) result }
{
    Totals {
        stored: totals.stored + row.stored,
        zero: totals.zero + row.zero,
        absent: totals.absent + row.absent,
        packed: totals.packed + row.packed,
    }
}

// All rows, and the totals.
fn put_rows(images: &[u8], lengths: &[u64], rows: &mut [u64]) -> Totals
    requires { Laid 1024 images.now lengths.now × (6 * length lengths.now ≤ length rows.old) }
    ensures { (result ≡ totals_below images.now lengths.now (length lengths.now))
        × (rows.new
        ≡ over rows.old 0
        (rows_below images.now lengths.now (length lengths.now))) }
{
    let mut totals = Totals {
        stored: 0,
        zero: 0,
        absent: 0,
        packed: 0,
    };
    let mut start: usize = 0;
    for (k, length) in lengths.iter().enumerate() {
        let row = row_at(images, lengths, k, start);
        totals = with_row(totals, row, k);
        put_row(&mut *rows, 6 * k, row);
        start += *length as usize;
    }
    totals
}

// How many of the rows have a number.
fn rows_with(rows: &[u64], number: u64) -> u64
    ensures { result ≡ count_of (λ k. get_or rows.now (6 * k + 4) 0) number (length rows.now / 6) }
{
    let mut count: u64 = 0;
    for k in 0..rows.len() / 6 {
        count += u64::from(rows[6 * k + 4] == number);
    }
    count
}

// The tally of the rows.
fn put_tally(rows: &[u64], tally: &mut [u64])
    requires { 63 ≤ length tally.old }
    ensures { tally.new ≡ over tally.old 0
        (tabulate 63 (λ i. count_of (λ k. get_or rows.now (6 * k + 4) 0) (i + 1) (length rows.now / 6))) }
{
    for i in 0..63 {
        tally[i] = rows_with(rows, i as u64 + 1);
    }
}

// Rows, totals and tally, where both lists are long enough.
fn survey_all(images: &[u8], lengths: &[u64], rows: &mut [u64], tally: &mut [u64]) -> Totals
    requires laid { Laid 1024 images.now lengths.now }
    requires lengths_in_bounds { (6 * length lengths.now ≤ length rows.old) × (63 ≤ length tally.old) }
    ensures { SurveyTold images.now lengths.now
        (Ok (totals_below images.now lengths.now (length lengths.now)))
        rows.old tally.old (Ok result) rows.new tally.new }
{
    let totals = put_rows(images, lengths, &mut *rows);
    put_tally(&rows[..6 * lengths.len()], &mut *tally);
    totals
}

// 21, or the survey.
fn survey_if_room(
    images: &[u8],
    lengths: &[u64],
    rows: &mut [u64],
    tally: &mut [u64],
) -> Result<Totals, Refusal>
    requires { Laid 1024 images.now lengths.now }
    ensures { SurveyTold images.now lengths.now
        (surveyed_if_room images.now lengths.now (length rows.old) (length tally.old))
        rows.old tally.old result rows.new tally.new }
{
    if (rows.len() < 6 * lengths.len()) | (tally.len() < 63) {
        return Err(Refusal::TooLittleRoom);
    }
    Ok(survey_all(images, lengths, &mut *rows, &mut *tally))
}

// Up to 1,024 images end to end, with their lengths. Rows are six words an image: stored, zero, absent, packed, number, place.
// The tally's 63 words are the numbers of images that are refused 1 to 63. Words past these, and all on a refusal, are kept.
pub fn survey(
    images: &[u8],
    lengths: &[u64],
    rows: &mut [u64],
    tally: &mut [u64],
) -> Result<Totals, Refusal>
    ensures { SurveyTold images.now lengths.now
        (survey images.now lengths.now (length rows.old) (length tally.old))
        rows.old tally.old result rows.new tally.new }
{
    if lengths::lengths_broken(1024, images, lengths) {
        return Err(Refusal::LayerLengths);
    }
    survey_if_room(images, lengths, &mut *rows, &mut *tally)
}
