// The descriptor's two calls, told in lines.
#![tactic(auto)]

ghost use Rattle.std.specs.Prelude.{◌+◌, ◌≤◌, length};

use descriptor::{Described, Extent, Found, Parsed};
use std::io;

fn put_line(rt: &impl Print, call: &[u8], numbers: &[u64]) -> io::Result<()> {
    programs::start(rt, call)?;
    for n in numbers {
        programs::put(rt, *n)?;
    }
    programs::end(rt)
}

// Number, place, extents, version, CID, parentCID, createType's place and length.
fn put_described(rt: &impl Print, a: Described) -> io::Result<()> {
    put_line(
        rt,
        b"descriptor ",
        &[
            a.number,
            a.place,
            a.extents,
            a.version,
            a.cid,
            a.parent_cid,
            a.type_at,
            a.type_length,
        ],
    )
}

// First sector, sectors, access, kind, the name's place and length, offset.
fn put_record(rt: &impl Print, e: Extent) -> io::Result<()> {
    put_line(
        rt,
        b"record ",
        &[
            e.first,
            e.sectors,
            e.access,
            e.kind,
            e.name_at,
            e.name_length,
            e.offset,
        ],
    )
}

// Number, place, extent.
fn put_found(rt: &impl Print, f: Found) -> io::Result<()> {
    put_line(rt, b"find ", &[f.number, f.place, f.extent])
}

// What a lent record holds before a call: it shows which were not stored to.
fn held() -> Extent {
    Extent {
        first: 9,
        sectors: 9,
        access: 9,
        kind: 9,
        name_at: 9,
        name_length: 9,
        offset: 9,
    }
}

// All records that are to be stored.
fn put_records(rt: &impl Print, p: &Parsed) -> io::Result<()> {
    for e in p.records.iter().take(p.count) {
        put_record(rt, *e)?;
    }
    Ok(())
}

fn record_at(bytes: &[u8], at: usize) -> Extent
    requires { at + 56 ≤ length bytes.now }
{
    Extent {
        first: base::number_at::<8>(bytes, at),
        sectors: base::number_at::<8>(bytes, at + 8),
        access: base::number_at::<8>(bytes, at + 16),
        kind: base::number_at::<8>(bytes, at + 24),
        name_at: base::number_at::<8>(bytes, at + 32),
        name_length: base::number_at::<8>(bytes, at + 40),
        offset: base::number_at::<8>(bytes, at + 48),
    }
}

fn records_of(bytes: &[u8]) -> [Extent; 32]
    requires { 1792 ≤ length bytes.now }
{
    std::array::from_fn(|i| record_at(bytes, 56 * i))
}

// The search in a list of 32 records.
pub fn find(rt: &impl Print, bytes: &[u8], sector: u64) -> io::Result<()> {
    if bytes.len() < 1792 {
        return Ok(());
    }
    put_found(rt, lent::found(records_of(bytes), sector))
}

// The answer for a lent list of four records, the four after it, and all records.
pub fn text(rt: &impl Print, text: &[u8]) -> io::Result<()> {
    let lent = lent::described(text, [held(); 4]);
    put_described(rt, lent.answer)?;
    for e in lent.list {
        put_record(rt, e)?;
    }
    if let Ok(p) = text::parse(text) {
        put_records(rt, &p)?;
    }
    Ok(())
}

// The search in a text's records, if it is not refused: those past the last have no sectors.
pub fn find_in_text(rt: &impl Print, text: &[u8], sector: u64) -> io::Result<()> {
    if let Ok(p) = text::parse(text) {
        let records = p.records;
        put_found(rt, lent::found(records, sector))?;
    }
    Ok(())
}
