// The first byte in which a lent slice differs from what is to stand there.
#![tactic(auto)]

ghost use Rattle.std.specs.Prelude.{◌+◌, ◌≤◌, length};
ghost use Rattle.base.specs.Numbers.{le_bytes};
ghost use Rattle.base.specs.Bytes.{zeros};
ghost use Rattle.alike.specs.FirstOther.{FirstOther, ZerosTo};

// Of the bytes of `w`, which are to stand from `at` on.
pub fn first_other(s: &[u8], at: usize, w: &[u8]) -> usize
    requires { at + length w.now ≤ length s.now }
    ensures { FirstOther s.now at w.now result }
{
    at + s[at..]
        .iter()
        .zip(w)
        .position(|(x, y)| *x != *y)
        .unwrap_or(w.len())
}

// Past zeros eight bytes at a time, where as many are left of n: most gaps are nothing else.
fn past_zero_words(s: &[u8], at: usize, n: usize) -> usize
    requires { at + n ≤ length s.now }
    ensures { ZerosTo s.now at n result }
{
    for k in 0..n / 8 {
        if base::number_at::<8>(s, at + 8 * k) != 0 {
            return 8 * k;
        }
    }
    8 * (n / 8)
}

// Of n zeros.
pub fn first_nonzero(s: &[u8], at: usize, n: usize) -> usize
    requires { at + n ≤ length s.now }
    ensures { FirstOther s.now at (zeros n) result }
{
    for i in past_zero_words(s, at, n)..n {
        if s[at + i] != 0 {
            return at + i;
        }
    }
    at + n
}

// Of the four bytes of v: they are looked at one by one only where the number is another.
pub fn first_of_number(s: &[u8], at: usize, v: u64) -> usize
    requires { at + 4 ≤ length s.now }
    ensures { FirstOther s.now at (le_bytes 4 v) result }
{
    if base::number_at::<4>(s, at) == v {
        return at + 4;
    }
    first_other(s, at, &v.to_le_bytes()[..4])
}
