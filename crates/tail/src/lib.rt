// The tail that closes a stream, written into lent output, table after table. What was written is not read again.
#![tactic(auto)]

ghost use Rattle.std.specs.Prelude.{◌≡◌, ◌+◌, ◌*◌, ◌≤◌, ◌<◌, length};
ghost use Rattle.base.specs.Numbers.{le_bytes};
ghost use Rattle.base.specs.Bytes.{over};
ghost use Rattle.format.specs.Header.{directory_entries_of};
ghost use Rattle.format.specs.Stream.{kept_grains};
ghost use Rattle.format.specs.Tail.{kept_entry, new_tables, marker_bytes, tail_sectors};
ghost use Rattle.format.specs.Close.{tail_of};
ghost use Rattle.walk.specs.Walked.{no_grain, Tallied};
ghost use Rattle.tail.specs.TailPut.{Walking, Left, entries_from, table_of, RowReady, RowPut, with_rows, last_parts};

use format::Header;
use sizes::directory_entries;
use walk::{Counted, NextGrain, next_grain, next_in, overhead};

// The tables written, and the next grain, if there is one.
#[derive(Clone, Copy)]
pub struct Rows {
    pub tables: u64,
    pub next: Option<NextGrain>,
}

// A marker's sector: its first number, size 0 and its type.
fn put_marker(out: &mut [u8], at: usize, first: u64, kind: u64)
    requires { at + 512 ≤ length out.old }
    ensures { out.new ≡ over out.old at (marker_bytes first kind) }
{
    base::put_number::<8>(&mut *out, at, first);
    base::put_number::<4>(&mut *out, at + 8, 0);
    base::put_number::<4>(&mut *out, at + 12, kind);
    base::fill(&mut *out, at + 16, 496);
}

// The entry of grain g, to byte `at`; `next` is the next grain from g on, and what is handed back from g + 1 on.
fn put_entry(
    out: &mut [u8],
    at: usize,
    image: &[u8],
    h: Header,
    next: Option<NextGrain>,
    g: u64,
) -> Option<NextGrain>
    requires { Walking image.now h × (at + 4 ≤ length out.old) × (g < no_grain) × Left image.now h g next }
    ensures { (out.new ≡ over out.old at (le_bytes 4 (kept_entry (kept_grains image.now h) g)))
        × Left image.now h (g + 1) result }
{
    match next {
        Some(c) if c.number == g => {
            base::put_number::<4>(&mut *out, at, c.sector);
            next_grain(image, h, c.sector + c.sectors, g + 1)
        }
        _ => {
            base::put_number::<4>(&mut *out, at, 0);
            next
        }
    }
}

// The entries of the table whose first grain is g.
fn put_entries(
    out: &mut [u8],
    at: usize,
    image: &[u8],
    h: Header,
    first: Option<NextGrain>,
    g: u64,
) -> Option<NextGrain>
    requires { Walking image.now h × (at + 2048 ≤ length out.old) × (g + 512 ≤ no_grain) × Left image.now h g first }
    ensures { (out.new ≡ over out.old at (entries_from (kept_grains image.now h) g 512))
        × Left image.now h (g + 512) result }
{
    let mut next = first;
    for k in 0..512 {
        next = put_entry(&mut *out, at + 4 * k, image, h, next, g + k as u64);
    }
    next
}

// The table of directory entry d, with its marker.
fn put_table(
    out: &mut [u8],
    at: usize,
    image: &[u8],
    h: Header,
    next: Option<NextGrain>,
    d: u64,
) -> Option<NextGrain>
    requires { Walking image.now h × (at + 2560 ≤ length out.old) × (d ≤ 0x80000000) × Left image.now h (512 * d) next }
    ensures { (out.new ≡ over out.old at (table_of (kept_grains image.now h) d))
        × Left image.now h (512 * d + 512) result }
{
    put_marker(&mut *out, at, 4, 1);
    put_entries(&mut *out, at + 512, image, h, next, 512 * d)
}

// Directory entry d, and its table if it has grains; the rows before it are done. `end` is the sector where the tail starts.
fn put_row(
    out: &mut [u8],
    directory: u64,
    end: u64,
    image: &[u8],
    h: Header,
    rows: Rows,
    d: u64,
) -> Rows
    requires row_ready { RowReady image.now h directory rows.tables d (length out.old) rows.next }
    requires end_bound { end ≤ 0x80000000000000 }
    ensures { RowPut image.now h end directory rows.tables d result out.old out.new }
{
    let at = (directory + 4 * d) as usize;
    if next_in(rows.next, d) {
        let next = put_table(
            &mut *out,
            (2560 * rows.tables) as usize,
            image,
            h,
            rows.next,
            d,
        );
        base::put_number::<4>(&mut *out, at, end + 5 * rows.tables + 1);
        return Rows {
            tables: rows.tables + 1,
            next,
        };
    }
    base::put_number::<4>(&mut *out, at, 0);
    rows
}

// All n directory entries in use, and the tables of those with grains.
fn put_rows(out: &mut [u8], directory: u64, end: u64, image: &[u8], h: Header, n: u64)
    requires walking { Walking image.now h × (n ≡ directory_entries_of h) × (n ≤ 0x80000000) × (end ≤ 0x80000000000000) }
    requires h_bound { (2560 * new_tables h (kept_grains image.now h) ≤ directory) × (directory + 4 * n ≤ length out.old) }
    ensures { out.new ≡ with_rows (kept_grains image.now h) end directory n out.old }
{
    let mut rows = Rows {
        tables: 0,
        next: next_grain(image, h, overhead(image), 0),
    };
    for d in 0..n {
        rows = put_row(&mut *out, directory, end, image, h, rows, d);
    }
}

// The footer with its marker, and the last sector. The footer is sector 0 but for the directory's sector.
fn put_last(out: &mut [u8], at: usize, image: &[u8], directory: u64)
    requires { (at + 1536 ≤ length out.old) × (512 ≤ length image.now) }
    ensures { out.new ≡ over out.old at (last_parts image.now directory) }
{
    put_marker(&mut *out, at, 0, 3);
    base::copy(&mut *out, at + 512, image, 56);
    base::put_number::<8>(&mut *out, at + 568, directory);
    base::copy(&mut *out, at + 576, &image[64..], 448);
    base::fill(&mut *out, at + 1024, 512);
}

// The whole tail, over the front of the output.
pub fn write_tail(out: &mut [u8], image: &[u8], h: Header, kept: Counted)
    requires walking { Walking image.now h × Tallied image.now h kept }
    requires h_bound { (directory_entries_of h * 4 ≤ 512 * h.directory_sectors)
        × (512 * tail_sectors h (kept_grains image.now h) ≤ length out.old) }
    ensures { out.new ≡ over out.old 0 (tail_of image.now h) }
{
    let n = directory_entries(h.capacity, h.entries_per_table, h.grain_size);
    let directory = 2560 * kept.tables + 512;
    let used = directory + 4 * n;
    let last = directory + 512 * h.directory_sectors;
    put_rows(&mut *out, directory, kept.sectors, image, h, n);
    put_marker(
        &mut *out,
        (directory - 512) as usize,
        h.directory_sectors,
        2,
    );
    base::fill(&mut *out, used as usize, (last - used) as usize);
    put_last(
        &mut *out,
        last as usize,
        image,
        kept.sectors + 5 * kept.tables + 1,
    );
}
