// Bytes: numbers and fixed strings in lent slices, and parts of them written. What every other crate stands on.
#![tactic(auto)]

ghost use Rattle.std.specs.Prelude.{◌≡◌, ◌+◌, ◌≤◌, ◌<◌, ◌^◌, ltb, length, take};
ghost use Rattle.base.specs.Rounding.{ceil};
ghost use Rattle.base.specs.Numbers.{le_at, le_bytes};
ghost use Rattle.base.specs.Strings.{same_at, same_word};
ghost use Rattle.base.specs.Bytes.{over, zeros};

// The number of N bytes that stands in `s` from `at` on, lowest byte first. This loop compiles to one load, as the one of
// `put_number` to one store; a copy into eight bytes and `from_le_bytes` did not where it was inlined.
pub fn number_at<const N: usize>(s: &[u8], at: usize) -> u64
    requires { (at + N ≤ length s.now) × (N ≤ 8) }
    ensures { (result ≡ le_at s.now at N) × (result < 256 ^ N) }
{
    let mut n = 0;
    for i in 0..N {
        n += u64::from(s[at + i]) << (8 * i);
    }
    n
}

// Whether the bytes of `w` stand in `s` from `at` on.
pub fn same_at(s: &[u8], at: usize, w: &[u8]) -> bool
    requires { at + length w.now ≤ length s.now }
    ensures { result ≡ same_at s.now at w.now }
{
    &s[at..at + w.len()] == w
}

// Whether `w` is the fixed word `fixed`, written in small letters, without regard to ASCII case.
pub fn same_word(w: &[u8], fixed: &[u8]) -> bool
    ensures { result ≡ same_word w.now fixed.now }
{
    w.len() == fixed.len()
        && w.iter()
            .zip(fixed)
            .all(|(x, y)| x.to_ascii_lowercase() == *y)
}

// The N lowest bytes of v from `at` on.
pub fn put_number<const N: usize>(out: &mut [u8], at: usize, v: u64)
    requires { (at + N ≤ length out.old) × (N ≤ 8) }
    ensures { out.new ≡ over out.old at (le_bytes N v) }
{
    let bytes = v.to_le_bytes();
    for i in 0..N {
        out[at + i] = bytes[i];
    }
}

// n zeros from `at` on.
pub fn fill(out: &mut [u8], at: usize, n: usize)
    requires { at + n ≤ length out.old }
    ensures { out.new ≡ over out.old at (zeros n) }
{
    out[at..at + n].fill(0);
}

// The first n bytes of `src` from `at` on.
pub fn copy(out: &mut [u8], at: usize, src: &[u8], n: usize)
    requires { (n ≤ length src.now) × (at + n ≤ length out.old) }
    ensures { out.new ≡ over out.old at (take n src.now) }
{
    // `copy_from_slice` is a call of memmove, from outside, which takes longer over grains that no cache holds.
    for i in 0..n {
        out[at + i] = src[i];
    }
}

// a / b, rounded up.
pub fn ceil_div(a: u64, b: u64) -> u64
    requires { 1 ≤ b }
    ensures { (result ≡ ceil a b) × (result ≤ a) }
{
    a.div_ceil(b)
}

// Whether an area runs past sector `end`: its sum is never made, so that it cannot wrap.
pub fn ends_past(first: u64, count: u64, end: u64) -> bool
    ensures { result ≡ ltb end (first + count) }
{
    end < first || end - first < count
}
