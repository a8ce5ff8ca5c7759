// Judging a header: refusals 1 to 7 and 43, of both kinds, and the one record that all calls pass round.
#![tactic(auto)]

ghost use Rattle.std.specs.Prelude.{◌≡◌};
ghost use Rattle.format.specs.Header.{judge_of, judge, judge_start};
ghost use Rattle.format.specs.Chain.{unlike};

use format::{Header, Refusal, Taken};

// The header of an image of a kind that is taken, or the first of 1 to 7 that it breaks, 43 right after 2.
pub fn judge_of(taken: Taken, image: &[u8]) -> Result<Header, Refusal>
    ensures { result ≡ judge_of taken image.now }
{
    if image.len() < 4 {
        return Err(Refusal::TooShort);
    }
    if base::same_at(image, 0, b"KDMV") {
        return kdmv::judge(image);
    }
    if base::same_at(image, 0, b"COWD") {
        return cowd::judge(taken, image);
    }
    Err(Refusal::Magic)
}

// For every call but the moves: COWD is refused.
pub fn judge(image: &[u8]) -> Result<Header, Refusal>
    ensures { result ≡ judge image.now }
{
    judge_of(Taken::KdmvAlone, image)
}

// The same of a start, which has no footer to judge: the first of 1 to 6.
pub fn judge_start(image: &[u8]) -> Result<Header, Refusal>
    ensures { result ≡ judge_start image.now }
{
    if image.len() < 4 {
        return Err(Refusal::TooShort);
    }
    if base::same_at(image, 0, b"KDMV") {
        return kdmv::judge_start(image);
    }
    judge(image)
}

// 22: two capacities or two grain sizes differ.
pub fn unlike(a: Header, b: Header) -> bool
    ensures { result ≡ unlike a b }
{
    !((a.capacity == b.capacity) & (a.grain_size == b.grain_size))
}
