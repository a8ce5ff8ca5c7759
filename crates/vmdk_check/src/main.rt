// The small program: reads an image of up to 65,536 bytes from standard input and prints its verdict, one line.
#![tactic(auto)]

use format::Verdict;
use std::io;

fn tell(rt: &impl Print, v: Verdict) -> io::Result<()> {
    if v.number == 0 {
        println!(rt; "accepted {} {}", v.capacity, v.grain_size)
    } else {
        println!(rt; "refused {} {}", v.number, v.place)
    }
}

// 37 where a byte is left after the buffer was filled.
fn main(rt: HostRuntime) -> io::Result<()> {
    let mut input = rt.reader();
    let mut buffer = [0; 65536];
    let n = programs::read_full(&mut input, &mut buffer)?;
    let mut more = [0];
    let left = programs::read_full(&mut input, &mut more)?;
    if 0 < left {
        return println!(rt; "refused 37 0");
    }
    tell(&rt, Verdict::from(accept::check(&buffer[..n])))
}
