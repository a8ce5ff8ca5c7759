// A program that runs the library on the cases that standard input holds, and prints a line for each call: its name and the
// numbers of its answer.
// A case is five u64, what is asked and the numbers of sectors, lengths, bytes and room; then the sectors and the lengths, a
// u64 each; then the bytes. What is asked: 0 the calls on one image; 1 the chain lookup; 2 the collapse of one to four layers;
// 3 a text's extents, and which of them hold the sectors; 4 which of 32 records in the bytes hold the sectors; 5 the lookup and
// the grain reader alone; 6 the frame; 7 the survey; 8 the lookup in a disk of several files, whose text the first length has;
// 9 the check in a lent list; 10 mending, whose good side and room for words are the lengths; 11 both moves; 12 the profile;
// 13 closing; 14 the lookup's steps. The room is the length of the output, of the list or of the copy that is mended.
#![tactic(auto)]

ghost use Rattle.std.specs.Prelude.{◌≤◌, ◌<◌, length};

use std::io;
use std::io::Read;

// What is asked of a case once.
fn ask(rt: &impl Print, what: u64, lengths: &[u8], bytes: &[u8], out: &mut [u8]) -> io::Result<()>
    requires { length lengths.now ≤ 136 }
{
    match what {
        0 => {
            cases_images::image(rt, bytes)?;
            cases_written::normal(rt, bytes, &mut *out)
        }
        2 => cases_pairings::pairings(rt, bytes, lengths, &mut *out),
        3 => cases_texts::text(rt, bytes),
        6 => cases_lists::frame(rt, bytes, out.len()),
        7 => cases_lists::survey(rt, bytes, lengths, out.len()),
        9 => cases_lists::check_in(rt, bytes, out.len()),
        10 => cases_lists::mend(rt, bytes, lengths, &mut *out),
        11 => cases_images::moves(rt, bytes, &mut *out),
        12 => cases_images::profile(rt, bytes),
        13 => cases_written::close(rt, bytes, &mut *out),
        _ => Ok(()),
    }
}

// What is asked for one of its sectors.
fn ask_sector(
    rt: &impl Print,
    what: u64,
    lengths: &[u8],
    bytes: &[u8],
    sector: u64,
) -> io::Result<()>
    requires { length lengths.now ≤ 136 }
{
    match what {
        1 => cases_images::look_down(rt, bytes, lengths, sector),
        3 => cases_texts::find_in_text(rt, bytes, sector),
        4 => cases_texts::find(rt, bytes, sector),
        8 => cases_disks::look(rt, bytes, lengths, sector),
        14 => cases_images::steps(rt, bytes, sector),
        _ => cases_images::look(rt, bytes, sector),
    }
}

fn ask_sectors(
    rt: &impl Print,
    what: u64,
    lengths: &[u8],
    bytes: &[u8],
    sectors: &[u8],
) -> io::Result<()>
    requires { length lengths.now ≤ 136 }
{
    for sector in sectors.chunks_exact(8) {
        ask_sector(rt, what, lengths, bytes, base::number_at::<8>(sector, 0))?;
    }
    Ok(())
}

// Number k of a case, none where it is too large for one.
fn number_at(head: &[u8], k: usize, most: u64) -> usize
    requires { (40 ≤ length head.now) × (k < 5) }
    ensures { result ≤ most }
{
    let n = base::number_at::<8>(head, 8 * k);
    if most < n {
        return 0;
    }
    n as usize
}

// What follows a case's five numbers.
fn read_body<I: Read>(input: &mut I, head: &[u8], body: &mut [u8]) -> io::Result<()>
    requires { (40 ≤ length head.now) × (295048 ≤ length body.old) }
{
    let n = 8 * number_at(head, 1, 4096) + 8 * number_at(head, 2, 17) + number_at(head, 3, 262144);
    programs::read_full(input, &mut body[..n])?;
    Ok(())
}

fn run_case(rt: &impl Print, head: &[u8], body: &[u8], out: &mut [u8]) -> io::Result<()>
    requires { (40 ≤ length head.now) × (295048 ≤ length body.now) × (65536 ≤ length out.old) }
{
    let what = base::number_at::<8>(head, 0);
    let (sectors, rest) = body.split_at(8 * number_at(head, 1, 4096));
    let (lengths, rest) = rest.split_at(8 * number_at(head, 2, 17));
    let bytes = &rest[..number_at(head, 3, 262144)];
    let room = number_at(head, 4, 65536);
    ask(rt, what, lengths, bytes, &mut out[..room])?;
    ask_sectors(rt, what, lengths, bytes, sectors)
}

// Whether there was a case.
fn next_case<I: Read>(
    rt: &impl Print,
    input: &mut I,
    head: &mut [u8],
    body: &mut [u8],
    out: &mut [u8],
) -> io::Result<bool>
    requires { (40 ≤ length head.old) × (295048 ≤ length body.old) × (65536 ≤ length out.old) }
{
    let got = programs::read_full(input, &mut *head)?;
    if got < 40 {
        return Ok(false);
    }
    read_body(input, head, &mut *body)?;
    run_case(rt, head, body, &mut *out)?;
    Ok(true)
}

// At most 65,536 cases, so that it ends.
fn main(rt: HostRuntime) -> io::Result<()> {
    let mut input = rt.reader();
    let mut head = [0; 40];
    let mut body = [0; 295048];
    let mut out = [0; 65536];
    for _ in 0..65536 {
        if !next_case(&rt, &mut input, &mut head, &mut body, &mut out)? {
            break;
        }
    }
    Ok(())
}
