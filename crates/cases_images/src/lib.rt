// The calls on one image and on a chain that answer in numbers, and the moves, which stand above the other calls that write:
// each told in a line.
#![tactic(auto)]

ghost use Rattle.std.specs.Prelude.{◌≤◌, length};

use format::steps::Steps;
use format::{Head, Located, Verdict};
use std::io;

// Number, place, capacity, grain size.
fn put_verdict(rt: &impl Print, call: &str, v: Verdict) -> io::Result<()> {
    println!(rt;
        "{call} {} {} {} {} ",
        v.number, v.place, v.capacity, v.grain_size
    )
}

// Number, place, capacity, grain size, descriptor's sector and sectors, dirty.
fn put_head(rt: &impl Print, h: Head) -> io::Result<()> {
    println!(rt;
        "header {} {} {} {} {} {} {} ",
        h.number, h.place, h.capacity, h.grain_size, h.descriptor, h.descriptor_sectors, h.dirty
    )
}

pub fn image(rt: &impl Print, image: &[u8]) -> io::Result<()> {
    put_verdict(rt, "check", Verdict::from(accept::check(image)))?;
    put_head(rt, Head::from(header::judge(image)))
}

// The lookup, then how many bytes the grain reader hands back, and their digest.
pub fn look(rt: &impl Print, image: &[u8], sector: u64) -> io::Result<()> {
    programs::put_located(rt, b"lookup ", Located::from(lookup::lookup(image, sector)))?;
    let part = reader::read(image, sector);
    println!(rt; "read {} {} ", part.len(), programs::digest(part))
}

// The lookup's steps: its answer among what stands on the way to it.
pub fn steps(rt: &impl Print, image: &[u8], sector: u64) -> io::Result<()> {
    let told = Steps::new(way::way(image, sector), lookup::lookup(image, sector));
    println!(rt;
        "steps {} {} {} {} {} {} {} {} {} {} {} {} ",
        told.number,
        told.place,
        told.one_is_zero,
        told.grain,
        told.directory_at,
        told.directory_entry,
        told.table_at,
        told.table_entry,
        told.kind,
        told.sector,
        told.size,
        told.offset
    )
}

// The chain lookup in at most 17 layers, which is one too many.
pub fn look_down(rt: &impl Print, layers: &[u8], lengths: &[u8], sector: u64) -> io::Result<()>
    requires { length lengths.now ≤ 136 }
{
    let numbers = programs::numbers_of(lengths);
    let layer_lengths = &numbers[..lengths.len() / 8];
    programs::put_located(
        rt,
        b"chain ",
        Located::from(chain::chain(layers, layer_lengths, sector)),
    )
}

// Both moves, each of the same image.
pub fn moves(rt: &impl Print, image: &[u8], out: &mut [u8]) -> io::Result<()> {
    print!(rt; "to_kdmv ")?;
    out.fill(170);
    let a = moves::to_kdmv(image, &mut *out);
    cases_written::put_answer(rt, a, out)?;
    print!(rt; "to_cowd ")?;
    out.fill(170);
    let b = moves::to_cowd(image, &mut *out);
    cases_written::put_answer(rt, b, out)
}

pub fn profile(rt: &impl Print, image: &[u8]) -> io::Result<()> {
    put_verdict(rt, "profile", Verdict::from(profile::profile(image)))
}
