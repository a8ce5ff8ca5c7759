// The calls that write over an output, each told in a line. The output holds 170 in each byte before the call: it shows which
// bytes were not written.
#![tactic(auto)]

use format::closing::Closed;
use format::{Refusal, Written};
use std::io;

// Number, place, length, and the digest of the whole output.
pub fn put_answer(rt: &impl Print, a: Result<u64, Refusal>, out: &[u8]) -> io::Result<()> {
    let w = Written::from(a);
    println!(rt;
        "{} {} {} {} ",
        w.number,
        w.place,
        w.length,
        programs::digest(out)
    )
}

pub fn normal(rt: &impl Print, image: &[u8], out: &mut [u8]) -> io::Result<()> {
    print!(rt; "normal ")?;
    out.fill(170);
    let a = collapse::normal(image, &mut *out);
    put_answer(rt, a, out)
}

pub fn collapse(rt: &impl Print, lower: &[u8], upper: &[u8], out: &mut [u8]) -> io::Result<()> {
    print!(rt; "collapse ")?;
    out.fill(170);
    let a = collapse::collapse(lower, upper, &mut *out);
    put_answer(rt, a, out)
}

// Number, place, kept sectors and grains, the tail's length, and the digest of the whole output.
pub fn close(rt: &impl Print, image: &[u8], out: &mut [u8]) -> io::Result<()> {
    out.fill(170);
    let told = Closed::from(close::close(image, &mut *out));
    println!(rt;
        "close {} {} {} {} {} {} ",
        told.number,
        told.place,
        told.sectors,
        told.grains,
        told.length,
        programs::digest(out)
    )
}
