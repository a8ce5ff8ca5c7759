// Refusal 24: a lent list of lengths, of parts that stand end to end in one slice.
#![tactic(auto)]

ghost use Rattle.std.specs.Prelude.{◌≡◌, eqb};
ghost use Rattle.format.specs.Chain.{lengths_sum, lengths_broken};

// Whether the lengths add up to n: what is left of n cannot wrap, as their sum could.
pub fn sum_is(lengths: &[u64], n: u64) -> bool
    ensures { result ≡ eqb (lengths_sum lengths.now) n }
{
    let mut left = n;
    for next in lengths {
        if left < *next {
            return false;
        }
        left -= *next;
    }
    left == 0
}

// 24: 1 to `most` parts, whose lengths are the slice's.
pub fn lengths_broken(most: usize, parts: &[u8], lengths: &[u64]) -> bool
    ensures { result ≡ lengths_broken most parts.now lengths.now }
{
    lengths.is_empty() || most < lengths.len() || !sum_is(lengths, parts.len() as u64)
}
