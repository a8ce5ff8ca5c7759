// Whether what entries name stands in ascending order, in one pass over the entries.
#![tactic(auto)]

ghost use mathlib.Core.Path.{sym};
ghost use mathlib.Core.Bool.{true≢false};
ghost use Rattle.std.specs.Prelude.{◌≡◌, refl, false, ◌+◌, ◌*◌, ◌^◌, ◌≤◌, ◌<◌, length};
ghost use Rattle.base.specs.Rows.{rows};
ghost use Rattle.format.specs.Geometry.{file_sectors};
ghost use Rattle.format.specs.Entries.{entry_at};
ghost use Rattle.format.specs.Areas.{area, runs_past};
ghost use Rattle.named.specs.Named.{entry_area, entry_areas};
ghost use Rattle.named.specs.Listed.{Listed, Grained};
ghost use Rattle.ascent.specs.Ascended.{ascend_none, ascend_on};
ghost use Rattle.ascent.specs.Ascend.{no_stretch, stretched, ascend, settled, span, table_row, table_rows};

use entries::{entry_at, file_sectors};
use named::{least_sector, take_entries};
use sizes::entries_in_use;
use window::Taker;

// From the lowest start of some areas to the end of the last. It falls where one began before the end of the one before it.
#[derive(Clone, Copy)]
pub struct Stretch {
    pub first: u64,
    pub end: u64,
    pub falls: bool,
}

// Its sectors.
pub fn sectors_of(stretch: Stretch) -> u64
    ensures { result ≡ (span stretch).sector_count }
{
    stretch.end.saturating_sub(stretch.first)
}

// The stretch with one area more. No branch: whether it falls is asked once a table.
fn with_area(stretch: Stretch, first: u64, sectors: u64) -> Stretch
    requires { first + sectors < 2 ^ 64 }
    ensures { result ≡ stretched stretch (area first sectors) }
{
    Stretch {
        first: stretch.first.min(first),
        end: first + sectors,
        falls: stretch.falls | (first < stretch.end),
    }
}

// It takes each area, and stops at none.
impl Taker for Stretch {
    ghost ready = { λ a. Unit {0} };

    ghost takes = { λ a l b r. (b ≡ ascend a l) × (r ≡ false) };

    fn take(&mut self, first: u64, count: u64) -> bool {
        *self = with_area(*self, first, count);
        false
    }

    ghost none = { λ a. (sym (ascend_none a), refl) };

    ghost more = { λ a b c l m r f g. (ascend_on l m a b c f.0 g.0, g.1) };

    ghost stop = { λ a b l m f. absurd (true≢false f.1) };
}

// With the first n grains of directory entry d and then, where tables stand between grains, its table.
fn ascend_table(
    stretch: Stretch,
    image: &[u8],
    least: u64,
    packed: bool,
    size: u64,
    directory: u64,
    d: u64,
    n: u64,
    between: bool,
    sectors: u64,
) -> Stretch
    requires le_least { (1 ≤ least) × (512 * directory + 4 * d + 4 ≤ length image.now) × (sectors ≤ 32) }
    requires listed { least ≤ entry_at image.now directory d → Listed image.now least packed size
        (entry_at image.now directory d) n }
    ensures { result ≡ ascend stretch (table_row image.now between sectors least packed size directory d n) }
{
    let t = entry_at(image, directory, d);
    if t < least {
        return stretch;
    }
    let mut reached = stretch;
    take_entries(&mut reached, image, least, packed, size, t, n);
    if between {
        return with_area(reached, t, sectors);
    }
    reached
}

// All grains, table by table, and the tables where they stand between grains. Left where it falls; entries past the last
// grain are not read.
pub fn ascend_grains(
    image: &[u8],
    one_is_zero: bool,
    packed: bool,
    size: u64,
    per_table: u64,
    directory: u64,
    all: u64,
    between: bool,
    sectors: u64,
) -> Stretch
    requires { Grained image.now one_is_zero packed size per_table directory all × (sectors ≤ 32) }
    ensures { result ≡ settled (ascend (no_stretch (file_sectors image.now)) (table_rows image.now between sectors
        one_is_zero packed size per_table directory all)) }
{
    let least = least_sector(one_is_zero);
    let mut reached = Stretch {
        first: file_sectors(image),
        end: 0,
        falls: false,
    };
    for d in 0..base::ceil_div(all, per_table) {
        let n = entries_in_use(per_table, all - d * per_table);
        reached = ascend_table(
            reached, image, least, packed, size, directory, d, n, between, sectors,
        );
        if reached.falls {
            return Stretch {
                first: 0,
                end: 0,
                falls: true,
            };
        }
    }
    reached
}
