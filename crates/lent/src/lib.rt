// The two calls on a local array of records that is lent to them: whoever calls these functions has plain values and no list.
#![tactic(auto)]

ghost use Rattle.std.specs.Prelude.{◌≡◌};
ghost use Rattle.descriptor.specs.Records.{descriptor_answer, descriptor_list, find_answer};

use descriptor::{Described, Extent, Found};

#[derive(Clone, Copy)]
pub struct Lent {
    pub answer: Described,
    pub list: [Extent; 4],
}

// The first call's answer, and the list after it.
pub fn described(text: &[u8], start: [Extent; 4]) -> Lent
    ensures { (result.answer ≡ descriptor_answer text.now start) × (result.list ≡ descriptor_list text.now start) }
{
    let mut list = start;
    let answer = records::describe(text, &mut list);
    Lent { answer, list }
}

// The second call's answer.
pub fn found(records: [Extent; 32], sector: u64) -> Found
    ensures { result ≡ find_answer records sector }
{
    records::find(&records, sector)
}
