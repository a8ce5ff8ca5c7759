// Refusal 7: the footer of a KDMV image whose directory stands at its end, and the last sector.
#![tactic(auto)]

ghost use Rattle.std.specs.Prelude.{◌≡◌, not, ◌&&◌, ◌+◌, ◌≤◌, length};
ghost use Rattle.base.specs.Strings.{same_at};
ghost use Rattle.base.specs.Bytes.{zeros};
ghost use Rattle.format.specs.Geometry.{bytes_at};
ghost use Rattle.format.specs.Kdmv.{footer_directory, footer_broken};

// The directory sector of an image whose directory stands at its end.
pub const ALL_ONES: u64 = 0xffffffffffffffff;

// Whether the footer, from byte `at` on, differs from sector 0 in a byte that is not one of 56 to 63.
fn footer_differs(image: &[u8], at: usize) -> bool
    requires { (512 ≤ at) × (at + 512 ≤ length image.now) }
    ensures { result ≡ not (same_at image.now at (bytes_at image.now 0 56)
        && same_at image.now (at + 64) (bytes_at image.now 64 448)) }
{
    !(base::same_at(image, at, &image[0..56]) && base::same_at(image, at + 64, &image[64..512]))
}

// Whether one of the 512 bytes from byte `at` on is not zero.
fn sector_not_zero(image: &[u8], at: usize) -> bool
    requires { at + 512 ≤ length image.now }
    ensures { result ≡ not (same_at image.now at (zeros 512)) }
{
    !base::same_at(image, at, &[0; 512])
}

// Whether a rule of the footer, sector F-2, or of the last sector is broken.
pub fn footer_broken(image: &[u8]) -> bool
    ensures { result ≡ footer_broken image.now }
{
    let sectors = image.len() / 512;
    if 0 < image.len() % 512 || sectors < 4 {
        return true;
    }
    let footer = 512 * (sectors - 2);
    let last = 512 * (sectors - 1);
    if footer_differs(image, footer) || sector_not_zero(image, last) {
        return true;
    }
    base::number_at::<8>(image, footer + 56) == ALL_ONES
}

pub fn footer_directory(image: &[u8]) -> u64
    requires { 1024 ≤ length image.now }
    ensures { result ≡ footer_directory image.now }
{
    base::number_at::<8>(image, 512 * (image.len() / 512 - 2) + 56)
}
