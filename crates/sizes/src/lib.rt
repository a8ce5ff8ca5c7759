// Sizes of either kind: what refusal 6 judges, and what is computed from them.
#![tactic(auto)]

ghost use Rattle.std.specs.Prelude.{◌≡◌, ◌≤◌, ◌<◌, min};
ghost use Rattle.base.specs.Rounding.{power_up_to};
ghost use Rattle.format.specs.Geometry.{grains, directory_entries, directory_sectors};
ghost use Rattle.format.specs.Kdmv.{capacity_broken, grain_size_broken};
ghost use Rattle.format.specs.Judged.{Sized};

pub fn capacity_broken(capacity: u64) -> bool
    ensures { result ≡ capacity_broken capacity }
{
    capacity == 0 || 0x80000000 < capacity
}

// Whether n is a power of two up to 2,048.
fn power(n: u64) -> bool
    ensures { result ≡ power_up_to 11 n }
{
    n.is_power_of_two() && n <= 2048
}

pub fn grain_size_broken(least: u64, size: u64) -> bool
    ensures { result ≡ grain_size_broken least size }
{
    size < least || !power(size)
}

// The grains of an image.
pub fn grains_of(capacity: u64, grain_size: u64) -> u64
    requires { Sized capacity grain_size }
    ensures { (result ≡ grains capacity grain_size) × (result ≤ 0x80000000) }
{
    base::ceil_div(capacity, grain_size)
}

// The entries of a table that are in use, where so many grains are left from its first entry on: 9 to 12 judge no other.
pub fn entries_in_use(per_table: u64, left: u64) -> u64
    ensures { result ≡ min per_table left }
{
    per_table.min(left)
}

// Directory entries in use, of tables of `per_table` entries.
pub fn directory_entries(capacity: u64, per_table: u64, grain_size: u64) -> u64
    requires { Sized capacity grain_size × (1 ≤ per_table) × (per_table ≤ 4096) }
    ensures { (result ≡ directory_entries capacity per_table grain_size) × (result ≤ capacity) }
{
    base::ceil_div(capacity, per_table * grain_size)
}

pub fn directory_sectors(entries: u64) -> u64
    requires { entries < 0x100000000 }
    ensures { result ≡ directory_sectors entries }
{
    base::ceil_div(4 * entries, 512)
}
