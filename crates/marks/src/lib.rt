// Runs of sectors marked in a list of words, one bit a sector. What tells whether two areas of a file share a sector.
#![tactic(auto)]

ghost use Rattle.std.specs.Prelude.{◌+◌, ◌*◌, ◌-◌, ◌/◌, ◌^◌, ◌≤◌, ◌<◌, min, max, length};
ghost use Rattle.marks.specs.Marks.{Mask, Room, Tested, Put, Marking};

// All sectors of a word.
const ALL: u64 = 0xffff_ffff_ffff_ffff;

// The word of the 64 sectors from `base` on, with those below `end` set.
fn below(base: usize, end: usize) -> u64
    ensures { Mask base 0 end result }
{
    if end <= base {
        return 0;
    }
    let count = end - base;
    if count < 64 { (1u64 << count) - 1 } else { ALL }
}

// The word of the 64 sectors from `base` on, with those of from..end set.
fn mask(base: usize, from: usize, end: usize) -> u64
    requires { from ≤ end }
    ensures { Mask base from end result }
{
    below(base, end) ^ below(base, from)
}

// The word of sector `from`, with the sectors from that one on set.
fn low_mask(from: usize) -> u64
    ensures { Mask (from / 64 * 64) from ((from / 64 + 1) * 64) result }
{
    ALL ^ ((1u64 << (from % 64)) - 1)
}

// The word of the last sector below `end`, with the sectors up to that one set.
fn high_mask(end: usize) -> u64
    requires { 1 ≤ end }
    ensures { Mask ((end - 1) / 64 * 64) ((end - 1) / 64 * 64) end result }
{
    ALL >> (63 - (end - 1) % 64)
}

// Whether the sectors of word j in the run from..end are free.
fn free_word(words: &[u64], j: usize, from: usize, end: usize) -> bool
    requires { (from ≤ end) × (j < length words.now) × (64 * length words.now < 2 ^ 64) }
    ensures { Tested words.now (max from (j * 64)) (min end ((j + 1) * 64)) result }
{
    words[j] & mask(j * 64, from, end) == 0
}

// Whether sector `from` and those after it in its word are free.
fn free_first(words: &[u64], from: usize) -> bool
    requires { from < 64 * length words.now }
    ensures { Tested words.now from ((from / 64 + 1) * 64) result }
{
    words[from / 64] & low_mask(from) == 0
}

// Whether the last sector below `end` and those before it in its word are free.
fn free_last(words: &[u64], end: usize) -> bool
    requires { (1 ≤ end) × (end ≤ 64 * length words.now) }
    ensures { Tested words.now ((end - 1) / 64 * 64) end result }
{
    words[(end - 1) / 64] & high_mask(end) == 0
}

// Whether all sectors of the words first..stop are free.
fn free_whole(words: &[u64], first: usize, stop: usize) -> bool
    requires { (first ≤ stop) × (stop ≤ length words.now) }
    ensures { Tested words.now (first * 64) (stop * 64) result }
{
    words[first..stop].iter().all(|w| *w == 0)
}

// Whether the run from..end, of a sector at least, is free: its first word, whole words, its last word.
fn free(words: &[u64], from: usize, end: usize) -> bool
    requires { Room words.now from end × (from < end) }
    ensures { Tested words.now from end result }
{
    let first = from / 64;
    let last = (end - 1) / 64;
    if last <= first {
        return free_word(words, first, from, end);
    }
    free_first(words, from) & free_whole(words, first + 1, last) & free_last(words, end)
}

// Marks the sectors of word j in the run from..end.
fn put_word(words: &mut [u64], j: usize, from: usize, end: usize)
    requires { (from ≤ end) × (j < length words.old) × (64 * length words.old < 2 ^ 64) }
    ensures { Put words.old words.new (max from (j * 64)) (min end ((j + 1) * 64)) }
{
    words[j] |= mask(j * 64, from, end);
}

// Marks sector `from` and those after it in its word.
fn put_first(words: &mut [u64], from: usize)
    requires { from < 64 * length words.old }
    ensures { Put words.old words.new from ((from / 64 + 1) * 64) }
{
    words[from / 64] |= low_mask(from);
}

// Marks the last sector below `end` and those before it in its word.
fn put_last(words: &mut [u64], end: usize)
    requires { (1 ≤ end) × (end ≤ 64 * length words.old) }
    ensures { Put words.old words.new ((end - 1) / 64 * 64) end }
{
    words[(end - 1) / 64] |= high_mask(end);
}

// Marks all sectors of the words first..stop.
fn put_whole(words: &mut [u64], first: usize, stop: usize)
    requires { (first ≤ stop) × (stop ≤ length words.old) }
    ensures { Put words.old words.new (first * 64) (stop * 64) }
{
    words[first..stop].fill(ALL);
}

// Marks the run from..end, of a sector at least, whether or not it is free: its first word, whole words, its last word.
fn put(words: &mut [u64], from: usize, end: usize)
    requires { Room words.old from end × (from < end) }
    ensures { Put words.old words.new from end }
{
    let first = from / 64;
    let last = (end - 1) / 64;
    if last <= first {
        put_word(&mut *words, first, from, end);
        return;
    }
    put_first(&mut *words, from);
    put_whole(&mut *words, first + 1, last);
    put_last(&mut *words, end);
}

// Marks any run, if it is free.
fn mark_run(words: &mut [u64], from: usize, count: usize) -> bool
    requires { Room words.old from (from + count) }
    ensures { Marking words.old words.new from (from + count) result }
{
    if count == 0 {
        return true;
    }
    let end = from + count;
    if free(&*words, from, end) {
        put(&mut *words, from, end);
        return true;
    }
    false
}

// Marks the words j and j + 1, if they are free.
fn mark_two(words: &mut [u64], j: usize) -> bool
    requires { j + 2 ≤ length words.old }
    ensures { Marking words.old words.new (j * 64) ((j + 2) * 64) result }
{
    if words[j] != 0 || words[j + 1] != 0 {
        return false;
    }
    words[j] = ALL;
    words[j + 1] = ALL;
    true
}

// Marks the run of `count` sectors from `from` on, if it is free. If not, the answer is false and no word is written.
// Nearly every disk has grains of 128 sectors, most at a multiple of 64: two words, in the caller's loop.
pub fn mark(words: &mut [u64], from: usize, count: usize) -> bool
    requires { Room words.old from (from + count) }
    ensures { Marking words.old words.new from (from + count) result }
{
    if count != 128 || from % 64 != 0 {
        return mark_run(&mut *words, from, count);
    }
    mark_two(&mut *words, from / 64)
}
