// The descriptor's two calls: a text is read and its extents are handed over in a lent list of records; and the record of such
// a list that holds a sector is found. The functions over the list are few and thin.
#![tactic(auto)]

ghost use Rattle.std.specs.Prelude.{◌≡◌, position};
ghost use Rattle.descriptor.specs.Records.{refusal, fits, stored, descriptor_answer, descriptor_list, holding, find_answer};

use descriptor::{Described, Extent, Found};

// The first `count` of the records are stored at the front of the list, if it has room for them; else nothing changes.
#[tactic(auto, unfolding(base::specs::Pick::pick))]
fn store(list: &mut [Extent], records: &[Extent; 32], count: usize) -> bool
    ensures fit { result ≡ fits list.old count }
    ensures front { list.new ≡ stored list.old records.now count }
{
    if 32 < count || list.len() < count {
        return false;
    }
    list[..count].copy_from_slice(&records[..count]);
    true
}

// A refusal has a number and a place; the rest is 0.
fn refusal(number: u64, place: u64) -> Described
    ensures { result ≡ refusal number place }
{
    Described {
        number,
        place,
        extents: 0,
        version: 0,
        cid: 0,
        parent_cid: 0,
        type_at: 0,
        type_length: 0,
    }
}

// Reads a descriptor's text and hands its extents over; 21 where the list is too short for them.
#[tactic(auto, unfolding(descriptor::specs::Records::answered, base::specs::Pick::pick))]
pub fn describe(text: &[u8], list: &mut [Extent]) -> Described
    ensures answer { result ≡ descriptor_answer text.now list.old }
    ensures records { list.new ≡ descriptor_list text.now list.old }
{
    let p = match text::parse(text) {
        Ok(p) => p,
        Err(r) => return refusal(r.number(), r.place()),
    };
    if store(list, &p.records, p.count) {
        p.answer
    } else {
        refusal(21, 0)
    }
}

// Whether a record's sectors hold a sector: no sum is made, so none can wrap.
pub fn holds(e: &Extent, sector: u64) -> bool
    ensures { result ≡ holding e.now sector }
{
    e.first <= sector && sector - e.first < e.sectors
}

// The number, in the list, of the first record whose sectors hold a sector.
pub fn holder(list: &[Extent], sector: u64) -> Option<usize>
    ensures { result ≡ position (λ e. holding e sector) list.now }
{
    list.iter().position(|e| holds(e, sector))
}

// The same in the answer's numbers; 20 if there is none.
pub fn find(list: &[Extent], sector: u64) -> Found
    ensures { result ≡ find_answer list.now sector }
{
    match holder(list, sector) {
        Some(i) => Found {
            number: 0,
            place: 0,
            extent: i as u64,
        },
        None => Found {
            number: 20,
            place: 0,
            extent: 0,
        },
    }
}
