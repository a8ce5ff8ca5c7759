// Closing a download that broke off: the tail for what is kept of it, into lent output.
#![tactic(auto)]

ghost use Rattle.std.specs.Prelude.{◌≡◌, ◌||◌, ltb, ◌*◌, ◌≤◌, length, Ok};
ghost use Rattle.format.specs.Geometry.{file_sectors};
ghost use Rattle.format.specs.Header.{directory_entries_of, judge_start};
ghost use Rattle.format.specs.Close.{no_stream, not_closable, tail_of, close_from, close, close_output};
ghost use Rattle.tail.specs.TailPut.{Walking};
ghost use Rattle.close.specs.ClosedAs.{closed_if_room, ClosedAs};

use format::closing::Kept;
use format::{Header, Refusal};
use walk::overhead;

// No start with directory at end, or one with a redundant directory.
fn no_stream(h: Header) -> bool
    ensures { result ≡ no_stream h }
{
    !h.footer | !(h.redundant == 0)
}

// Too many sectors, or a walk that would start in the header or past the end.
fn walk_misplaced(sectors: u64, start: u64) -> bool
    ensures { result ≡ (ltb 0x80000000 sectors || (ltb start 2 || ltb sectors start)) }
{
    (0x80000000 < sectors) | ((start < 2) | (sectors < start))
}

// All of 41.
fn not_closable(image: &[u8], h: Header) -> bool
    requires { 1 ≤ file_sectors image.now }
    ensures { result ≡ not_closable image.now h }
{
    let sectors = entries::file_sectors(image);
    let start = overhead(image);
    no_stream(h) | (walk_misplaced(sectors, start) | places::descriptor_past(start, h))
}

// 21, or the tail written.
fn write_closed(image: &[u8], h: Header, out: &mut [u8]) -> Result<Kept, Refusal>
    requires { Walking image.now h × (directory_entries_of h * 4 ≤ 512 * h.directory_sectors) }
    ensures { ClosedAs (closed_if_room image.now h (length out.old)) (tail_of image.now h)
        out.old result out.new }
{
    let kept = walk::count(image, h);
    let long = 512 * (5 * kept.tables + h.directory_sectors + 4);
    if (out.len() as u64) < long {
        return Err(Refusal::TooLittleRoom);
    }
    tail::write_tail(&mut *out, image, h, kept);
    Ok(Kept {
        sectors: kept.sectors,
        grains: kept.grains,
        length: long,
    })
}

// Of a judged header: 41, 21.
fn close_judged(image: &[u8], h: Header, out: &mut [u8]) -> Result<Kept, Refusal>
    requires { judge_start image.now ≡ Ok h }
    ensures { ClosedAs (close_from image.now h (length out.old)) (tail_of image.now h)
        out.old result out.new }
{
    if not_closable(image, h) {
        return Err(Refusal::NotClosable);
    }
    write_closed(image, h, &mut *out)
}

// The tail that closes what is kept of a stream. Bytes past it, and all on a refusal, are kept.
pub fn close(image: &[u8], out: &mut [u8]) -> Result<Kept, Refusal>
    ensures value { result ≡ close image.now (length out.old) }
    ensures out_after { out.new ≡ close_output image.now out.old }
{
    let h = header::judge_start(image)?;
    close_judged(image, h, &mut *out)
}
