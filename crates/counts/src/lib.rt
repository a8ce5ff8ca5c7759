// Marked sectors counted, and lists of words cleared.
#![tactic(auto)]

ghost use Rattle.std.specs.Prelude.{◌≡◌, ◌*◌, ◌^◌, ◌<◌, length};
ghost use Rattle.base.specs.Bytes.{zeros};
ghost use Rattle.base.specs.SumsBelow.{sum_below};
ghost use Rattle.marks.specs.Marks.{bit};
ghost use Rattle.counts.specs.MarkedCount.{Emptied};

// Sets all words to 0.
pub fn clear(words: &mut [u64])
    ensures { words.new ≡ zeros (length words.old) }
{
    words.fill(0);
}

// How many sectors of a word are marked.
fn marked_in(word: u64) -> u64
    ensures { result ≡ sum_below (bit word) 64 }
{
    u64::from(word.count_ones())
}

// Counts the sectors that are marked, and sets all words to 0: one pass.
pub fn empty(words: &mut [u64]) -> u64
    requires { 64 * length words.old < 2 ^ 64 }
    ensures { Emptied words.old words.new result }
{
    let mut total = 0;
    for w in words.iter_mut() {
        total += marked_in(*w);
        *w = 0;
    }
    total
}
