// What a descriptor's whole text says: its lines, judged one after the other up to the first that is at fault. Functions have
// the names of their definitions in the crate `descriptor`.
#![tactic(auto)]

ghost use Rattle.std.specs.Prelude.{◌≡◌, ◌+◌, ◌≤◌, length, OnOk, OnErr};
ghost use Rattle.descriptor.specs.Text.{lines};
ghost use Rattle.descriptor.specs.Descriptor.{start, judged_line, step, judged, read_text};
ghost use Rattle.lines.specs.LineBounds.{Within};
ghost use Rattle.text.specs.StateBounds.{Few, state_after, parsed_after};

use descriptor::{Described, Parsed, State, Stop, TextRefusal};

mod end;
mod state;

// The trimmed line w, which ends at the place `end`. After the first one that is not empty, an extent's first sector is the
// sum so far.
#[tactic(auto, unfolding(descriptor::specs::Descriptor::judged_line, base::specs::Pick::pick))]
fn judged_line(st: &mut State, end: u64, w: &[u8]) -> Result<(), TextRefusal>
    requires few { Few 65536 st.old }
    requires within { Within end w.now }
    ensures said { state_after result st.new ≡ judged_line st.old end w.now }
    ensures few { OnOk result (Few (st.old.line + 1) st.new) }
    ensures kept { OnErr result (st.new ≡ st.old) }
{
    if st.begun {
        let said = lines::line(st.sum, end, w);
        return state::taken(st, said);
    }
    if w.is_empty() {
        state::skipped(st);
        return Ok(());
    }
    if base::same_word(w, b"# disk descriptorfile") {
        state::opened(st);
        return Ok(());
    }
    Err(TextRefusal::NoFirstLine)
}

// The line from a place of the text to another.
#[tactic(auto, unfolding(descriptor::specs::Descriptor::step))]
fn step(text: &[u8], st: &mut State, from: usize, to: usize) -> Result<(), TextRefusal>
    requires few { Few 65536 st.old }
    requires from_le_to { (from ≤ to) × (to ≤ length text.now) × (length text.now ≤ 65536) }
    ensures said { state_after result st.new ≡ step text.now st.old (record { from = from; to = to }) }
    ensures few { OnOk result (Few (st.old.line + 1) st.new) }
    ensures kept { OnErr result (st.new ≡ st.old) }
{
    let w = words::trim_end(&text[from..to]);
    judged_line(st, (from + w.len()) as u64, words::trim_start(w))
}

// Line by line, each scanned for its end once: a turn goes as far as its line, which no range counts and whose place it needs.
fn judged(text: &[u8], st: &mut State) -> Result<Described, TextRefusal>
    requires short { length text.now ≤ 65536 }
    requires begins { st.old ≡ start }
    requires few { Few 0 st.old }
    ensures { parsed_after result st.new ≡ judged text.now start (lines text.now) }
{
    let mut from = 0;
    while from <= text.len() {
        let to = words::line_end(text, from);
        step(text, st, from, to)?;
        from = to + 1;
    }
    end::ended(st)
}

// What a descriptor's bytes say: the text is all up to the first zero byte, and from there on only zero bytes may follow. 36
// comes before a byte is read: the bytes may be a whole disk's.
#[tactic(auto, unfolding(descriptor::specs::Descriptor::read_text, base::specs::Pick::pick))]
fn read_text(s: &[u8], st: &mut State) -> Result<Described, TextRefusal>
    requires begins { st.old ≡ start }
    requires few { Few 0 st.old }
    ensures { parsed_after result st.new ≡ read_text s.now }
{
    if 65536 < s.len() {
        return Err(TextRefusal::TextTooLong);
    }
    let tail = words::rest(s, Stop::Byte(0));
    if words::count_before(tail, Stop::NotByte(0)) != tail.len() {
        return Err(TextRefusal::ByteAfterZero);
    }
    judged(words::before(s, Stop::Byte(0)), st)
}

// What a descriptor's bytes come to: its records, by value, and the answer.
pub fn parse(s: &[u8]) -> Result<Parsed, TextRefusal>
    ensures { result ≡ read_text s.now }
{
    let mut st = state::start();
    let answer = read_text(s, &mut st)?;
    Ok(Parsed {
        records: st.records,
        count: st.extents as usize,
        answer,
    })
}
