// The lines that the test program prints, of numbers with a space after each, and the numbers that it reads.
#![tactic(auto)]

ghost use Rattle.std.specs.Prelude.{◌≡◌, ◌≤◌, ◌<◌, IfOk, length};

use format::Located;
use std::io::Read;
use std::{fmt, io};

// Reads until the buffer is full or the input ends: how many bytes there were, which read_exact doesn't tell.
pub fn read_full<R: Read>(input: &mut R, buffer: &mut [u8]) -> io::Result<usize>
    ensures { IfOk result (λ n. n ≤ length buffer.new) }
{
    let mut done = 0;
    while done < buffer.len() {
        match input.read(&mut buffer[done..])? {
            0 => break,
            n => done += n,
        }
    }
    Ok(done)
}

pub fn start(rt: &impl Print, call: &[u8]) -> io::Result<()> {
    rt.write_all(call)
}

pub fn put(rt: &impl Print, n: u64) -> io::Result<()> {
    print!(rt; "{n} ")
}

pub fn end(rt: &impl Print) -> io::Result<()> {
    rt.write_all(b"\n")
}

// The words of a list, a space after each.
#[derive(Clone, Copy)]
pub struct Words<'a>(pub &'a [u64]);

impl fmt::Display for Words<'_> {
    fn fmt<W: fmt::Write>(&self, f: &mut fmt::Formatter<W>) -> fmt::Result {
        for word in self.0 {
            write!(f, "{word} ")?;
        }
        Ok(())
    }
}

// Number, layer, place, kind, sector, size, offset.
pub fn put_located(rt: &impl Print, call: &[u8], a: Located) -> io::Result<()> {
    start(rt, call)?;
    println!(rt;
        "{} {} {} {} {} {} {} ",
        a.number, a.layer, a.place, a.kind, a.sector, a.size, a.offset
    )
}

// One byte more: a number in base 257, by a prime below 2^55.
fn mixed(sum: u64, byte: u8) -> u64
    requires { sum < 36028797018963913 }
    ensures { result < 36028797018963913 }
{
    (257 * sum + u64::from(byte) + 1) % 36028797018963913
}

// What stands for bytes in a line.
pub fn digest(bytes: &[u8]) -> u64 {
    let mut sum = 0;
    for byte in bytes {
        sum = mixed(sum, *byte);
    }
    sum
}

// The lengths of up to 17 layers. The `ensures` gives the array's length, which lending it needs.
pub fn numbers_of(lengths: &[u8]) -> [u64; 17]
    ensures { 17 ≡ length result }
{
    let mut numbers = [0; 17];
    for (number, bytes) in numbers.iter_mut().zip(lengths.chunks_exact(8)) {
        *number = base::number_at::<8>(bytes, 0);
    }
    numbers
}
