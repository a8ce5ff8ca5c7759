// What a descriptor's line is made of: runs of bytes, words, numbers, quoted parts; and where a line ends. Functions have the
// names of their definitions in the crate `descriptor`. A part of a line is a part of its slice: nothing is copied.
#![tactic(auto)]

ghost use Rattle.std.specs.Prelude.{◌≡◌, ◌+◌, ◌≤◌, ◌<◌, length, drop, IfSome};
ghost use Rattle.descriptor.specs.declared.Stop.TheVariants.{Byte};
ghost use Rattle.descriptor.specs.Words.{stops, count_before, before, rest, trim_start, kept, trim_end, word, after_word};
ghost use Rattle.descriptor.specs.Words.{digit_value, numeral_from, numeral, decimal_value, hex, to_quote, quoted_length};
ghost use Rattle.descriptor.specs.Words.{after_quoted};

use descriptor::Stop;

// Whether a run of bytes stops at the byte x.
fn stops(stop: Stop, x: u8) -> bool
    ensures { result ≡ stops stop x }
{
    match stop {
        Stop::Byte(b) => x == b,
        Stop::NotByte(b) => x != b,
        Stop::Blank => matches!(x, b' ' | b'\t'),
        Stop::NotBlank => !matches!(x, b' ' | b'\t'),
        Stop::NotTrimmed => !matches!(x, b' ' | b'\t' | b'\r'),
    }
}

// How many bytes stand before the first at which a run stops; all of them if it stops at none.
pub fn count_before(w: &[u8], stop: Stop) -> usize
    ensures { (result ≡ count_before stop w.now) × (result ≤ length w.now) }
{
    w.iter().position(|x| stops(stop, *x)).unwrap_or(w.len())
}

// The bytes before that one.
pub fn before(w: &[u8], stop: Stop) -> &[u8]
    ensures { (result.now ≡ before stop w.now) × (length result.now ≤ length w.now) }
{
    &w[..count_before(w, stop)]
}

// The bytes from that one on.
pub fn rest(w: &[u8], stop: Stop) -> &[u8]
    ensures { (result.now ≡ rest stop w.now) × (length result.now ≤ length w.now) }
{
    &w[count_before(w, stop)..]
}

// What stands after the first n bytes; nothing where there are no more.
pub fn after(w: &[u8], n: usize) -> &[u8]
    ensures { (result.now ≡ drop n w.now) × (length result.now ≤ length w.now) }
{
    &w[n.min(w.len())..]
}

// Spaces, tabs and 0d trimmed at the start.
pub fn trim_start(w: &[u8]) -> &[u8]
    ensures { (result.now ≡ trim_start w.now) × (length result.now ≤ length w.now) }
{
    rest(w, Stop::NotTrimmed)
}

// How many bytes are left without those at the end that are trimmed.
fn kept(w: &[u8]) -> usize
    ensures { (result ≡ kept w.now (length w.now)) × (result ≤ length w.now) }
{
    w.iter()
        .rposition(|x| stops(Stop::NotTrimmed, *x))
        .map_or(0, |last| last + 1)
}

// Spaces, tabs and 0d trimmed at the end.
pub fn trim_end(w: &[u8]) -> &[u8]
    ensures { (result.now ≡ trim_end w.now) × (length result.now ≤ length w.now) }
{
    &w[..kept(w)]
}

// The first word is what stands before the first space or tab.
pub fn word(w: &[u8]) -> &[u8]
    ensures { (result.now ≡ word w.now) × (length result.now ≤ length w.now) }
{
    before(w, Stop::Blank)
}

// What stands after the first word and after the spaces or tabs behind it.
pub fn after_word(w: &[u8]) -> &[u8]
    ensures { (result.now ≡ after_word w.now) × (length result.now ≤ length w.now) }
{
    rest(rest(w, Stop::Blank), Stop::NotBlank)
}

// Where the line ends that begins at `from`: at the next 0a, or with the text.
pub fn line_end(text: &[u8], from: usize) -> usize
    requires { from ≤ length text.now }
    ensures { (result ≡ from + count_before (Byte 0x0a) (drop from text.now)) × (result ≤ length text.now) }
{
    from + count_before(&text[from..], Stop::Byte(b'\n'))
}

// What a digit is worth, of either case.
#[tactic(auto, unfolding(descriptor::specs::Words::digit_value, base::specs::Pick::pick))]
fn digit_value(x: u8) -> Option<u64>
    ensures { result ≡ digit_value x }
{
    match x {
        b'0'..=b'9' => Some(u64::from(x - b'0')),
        b'A'..=b'F' => Some(u64::from(x - b'A' + 10)),
        b'a'..=b'f' => Some(u64::from(x - b'a' + 10)),
        _ => None,
    }
}

// The number that digits of a base make, none if a byte is no digit of it. 15 hex digits have room in 64 bits.
fn numeral_from(w: &[u8], base: u64) -> Option<u64>
    requires { (base ≤ 16) × (length w.now ≤ 15) }
    ensures { result ≡ numeral_from base 0 w.now }
{
    let mut n: u64 = 0;
    for x in w {
        let d = digit_value(*x)?;
        if base <= d {
            return None;
        }
        n = base * n + d;
    }
    Some(n)
}

// 1 to `most` digits of a base and nothing else; none if w is no such number.
#[tactic(auto, unfolding(descriptor::specs::Words::numeral, base::specs::Pick::pick))]
fn numeral(w: &[u8], base: u64, most: usize) -> Option<u64>
    requires { (base ≤ 16) × (most ≤ 15) }
    ensures { result ≡ numeral base most w.now }
{
    if w.is_empty() || most < w.len() {
        return None;
    }
    numeral_from(w, base)
}

// 1 to 10 decimal digits.
pub fn decimal(w: &[u8]) -> Option<u64>
    ensures { result ≡ decimal_value w.now }
{
    numeral(w, 10, 10)
}

// 1 to 8 hex digits.
pub fn hex(w: &[u8]) -> Option<u64>
    ensures { result ≡ hex w.now }
{
    numeral(w, 16, 8)
}

// How many bytes stand before the closing quote, the next one: so a quoted part has no quote inside.
fn to_quote(w: &[u8]) -> Option<usize>
    ensures { (result ≡ to_quote w.now) × IfSome result (λ n. n < length w.now) }
{
    w.iter().position(|x| *x == b'"')
}

// The length of the quoted part that w begins with, its quotes not counted; none if w begins with no such part.
#[tactic(auto, unfolding(descriptor::specs::Words::quoted_length, base::specs::Pick::pick))]
pub fn quoted_length(w: &[u8]) -> Option<usize>
    ensures { (result ≡ quoted_length w.now) × IfSome result (λ n. n + 1 < length w.now) }
{
    match w {
        [b'"', inside @ ..] => to_quote(inside),
        _ => None,
    }
}

// What stands after the closing quote of a quoted part of n bytes.
pub fn after_quoted(w: &[u8], n: usize) -> &[u8]
    ensures { (result.now ≡ after_quoted n w.now) × (length result.now ≤ length w.now) }
{
    after(after(w, n), 2)
}
