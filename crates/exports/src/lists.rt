// The C face's calls that write two lent slices: the survey its two lists, mending the image and the list of changes.
ghost use Rattle.std.specs.Prelude.{◌≡◌, length};
ghost use Rattle.format.specs.Survey.{survey, survey_rows, survey_tally};
ghost use Rattle.format.specs.Mend.{mend, mended_image, mended_list};
ghost use Rattle.format.specs.Answers.{surveyed, side_of, mended_numbers};

use format::{Mended, Side, Surveyed};

#[unsafe(no_mangle)]
pub extern "C" fn anhkhovet_survey(
    images: &[u8],
    lengths: &[u64],
    rows: &mut [u64],
    tally: &mut [u64],
) -> Surveyed
    ensures { (result
        ≡ surveyed (survey images.now lengths.now (length rows.old)
        (length tally.old)))
        × ((rows.new ≡ survey_rows images.now lengths.now rows.old tally.old)
        × (tally.new
        ≡ survey_tally images.now lengths.now rows.old tally.old)) }
{
    Surveyed::from(survey::survey(images, lengths, &mut *rows, &mut *tally))
}

#[unsafe(no_mangle)]
pub extern "C" fn anhkhovet_mend(image: &mut [u8], good: u64, changes: &mut [u64]) -> Mended
    ensures { (result ≡ mended_numbers (mend image.old (side_of good) (length changes.old)))
        × ((image.new ≡ mended_image image.old (side_of good) changes.old)
        × (changes.new ≡ mended_list image.old (side_of good) changes.old)) }
{
    let side = Side::from(good);
    Mended::from(mend::mend(&mut *image, side, &mut *changes))
}
