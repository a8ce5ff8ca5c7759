// The collapse in every order of pairing neighbours, a line each; a layer alone is put into normal form.
#![tactic(auto)]

ghost use Rattle.std.specs.Prelude.{◌≤◌, length};

use format::Written;
use std::io;

// A pairing on the way: its result, empty on a refusal.
fn pair<'a>(lower: &[u8], upper: &[u8], out: &'a mut [u8]) -> &'a [u8]
    ensures { length result.now ≤ length out.old }
{
    let a = Written::from(collapse::collapse(lower, upper, &mut *out));
    let n = a.length as usize;
    if out.len() < n {
        return &[];
    }
    &out[..n]
}

fn three(
    rt: &impl Print,
    a: &[u8],
    b: &[u8],
    c: &[u8],
    x: &mut [u8],
    out: &mut [u8],
) -> io::Result<()> {
    cases_written::collapse(rt, pair(a, b, &mut *x), c, &mut *out)?;
    cases_written::collapse(rt, a, pair(b, c, &mut *x), &mut *out)
}

// (a b) first, then (b c), then (c d): (a b) (c d) comes twice.
fn four(
    rt: &impl Print,
    a: &[u8],
    b: &[u8],
    c: &[u8],
    d: &[u8],
    x: &mut [u8],
    y: &mut [u8],
    out: &mut [u8],
) -> io::Result<()> {
    three(rt, pair(a, b, &mut *y), c, d, &mut *x, &mut *out)?;
    three(rt, a, pair(b, c, &mut *y), d, &mut *x, &mut *out)?;
    three(rt, a, b, pair(c, d, &mut *y), &mut *x, &mut *out)
}

// A chain of one to four layers, of which those past the last are empty. They stand end to end in the bytes, and the fourth has
// all that are left.
pub fn pairings(rt: &impl Print, bytes: &[u8], lengths: &[u8], out: &mut [u8]) -> io::Result<()> {
    let numbers = programs::numbers_of(lengths);
    let (a, rest) = bytes.split_at((numbers[0] as usize).min(bytes.len()));
    let (b, rest) = rest.split_at((numbers[1] as usize).min(rest.len()));
    let (c, d) = rest.split_at((numbers[2] as usize).min(rest.len()));
    let mut x = [0; 65536];
    let mut y = [0; 65536];
    match lengths.len() / 8 {
        1 => cases_written::normal(rt, a, &mut *out),
        2 => cases_written::collapse(rt, a, b, &mut *out),
        3 => three(rt, a, b, c, &mut x, &mut *out),
        _ => four(rt, a, b, c, d, &mut x, &mut y, &mut *out),
    }
}
