// Refusal 40: whether an image can be mended from one side, judged on the image as it is.
#![tactic(auto)]

ghost use Rattle.std.specs.Prelude.{◌≡◌, ◌+◌, ◌*◌, ◌≤◌, length};
ghost use Rattle.format.specs.Entries.{meaning_at, any_below};
ghost use Rattle.format.specs.Areas.{areas, meet};
ghost use Rattle.format.specs.Check.{lowest_bad_marker};
ghost use Rattle.format.specs.Mend.{from_good, kinds_differ, directories_differ, unmendable};
ghost use Rattle.format.specs.Judged.{Placed, Filed, Sided};
ghost use Rattle.overlap.specs.InFile.{InFile};
ghost use Rattle.mendable.specs.ChangedRefused.{unless_none, changed_refused};

use entries::meaning_at;
use format::{Entry, Header, Refusal, Side};
use sizes::directory_entries;

// A header as read from the good side: its directory is the good one.
pub fn from_good(side: Side, h: Header) -> Header
    ensures { result ≡ from_good side h }
{
    match side {
        Side::Primary => h,
        Side::Redundant => Header {
            directory: h.redundant,
            redundant: h.directory,
            ..h
        },
    }
}

// Whether one of two directory entries is 0, 1 or a table where the other is not.
fn kinds_differ(good: Entry, other: Entry) -> bool
    ensures { result ≡ kinds_differ good other }
{
    !matches!(
        (good, other),
        (Entry::Absent, Entry::Absent)
            | (Entry::Zero, Entry::Zero)
            | (Entry::Sector(_), Entry::Sector(_))
    )
}

// The same of entry d of the two directories.
fn entry_kinds_differ(
    image: &[u8],
    one_is_zero: bool,
    directory: u64,
    redundant: u64,
    d: u64,
) -> bool
    requires { (512 * directory + 4 * d + 4 ≤ length image.now) × (512 * redundant + 4 * d + 4 ≤ length image.now) }
    ensures { result ≡ kinds_differ (meaning_at image.now one_is_zero directory d)
        (meaning_at image.now one_is_zero redundant d) }
{
    let good = meaning_at(image, one_is_zero, directory, d);
    let other = meaning_at(image, one_is_zero, redundant, d);
    kinds_differ(good, other)
}

// The same of their first n entries.
fn kinds_differ_below(
    image: &[u8],
    one_is_zero: bool,
    directory: u64,
    redundant: u64,
    n: u64,
) -> bool
    requires { (512 * directory + 4 * n ≤ length image.now) × (512 * redundant + 4 * n ≤ length image.now) }
    ensures { result ≡ any_below (λ d. kinds_differ (meaning_at image.now one_is_zero directory d)
        (meaning_at image.now one_is_zero redundant d)) n }
{
    (0..n).any(|d| entry_kinds_differ(image, one_is_zero, directory, redundant, d))
}

// Whether the two directories hold 0, 1 or tables in different places.
fn directories_differ(image: &[u8], g: Header) -> bool
    requires { Sided image.now g }
    ensures { result ≡ directories_differ image.now g }
{
    let n = directory_entries(g.capacity, g.entries_per_table, g.grain_size);
    kinds_differ_below(image, g.one_is_zero, g.directory, g.redundant, n)
}

// 10 and 12 from the good side, after 9.
fn markers_refused(image: &[u8], g: Header) -> bool
    requires { Filed image.now g × InFile image.now g }
    ensures { result ≡ unless_none (lowest_bad_marker image.now g) (meet (areas image.now g)) }
{
    let lowest = grains::lowest_bad_marker(image, g);
    match lowest {
        Some(_) => true,
        None => order::areas_meet(image, g),
    }
}

// 9, 10 and 12 from the good side: so the changed image would be judged, without a second image.
fn changed_refused(image: &[u8], g: Header) -> bool
    requires { Sided image.now g }
    ensures { result ≡ changed_refused image.now g }
{
    let lowest = grains::lowest_past(image, g);
    match lowest {
        Some(_) => true,
        None => markers_refused(image, g),
    }
}

// 40 of an image with two directories, whose header as read from the good side is g.
pub fn unmendable(image: &[u8], g: Header) -> bool
    requires { Sided image.now g }
    ensures { result ≡ unmendable image.now g }
{
    if directories_differ(image, g) {
        return true;
    }
    changed_refused(image, g)
}
