// What is known after some lines, and how a line changes it: in place, so that a thread with 16 KiB of stack is enough for
// the calls on texts.
ghost use Rattle.std.specs.Prelude.{◌≡◌, ◌+◌, ◌≤◌, IfOk, OnOk, OnErr};
ghost use Rattle.descriptor.specs.Descriptor.{start, skipped, opened, added, once, taken};
ghost use Rattle.lines.specs.LineBounds.{Bounded};
ghost use Rattle.text.specs.StateBounds.{Few, state_after};

use descriptor::{Extent, KeyValue, Line, LineFault, State, TextRefusal};

// Before all lines: no key has come.
pub fn start() -> State
    ensures said { result ≡ start }
    ensures few { Few 0 result }
{
    let none = Extent {
        first: 0,
        sectors: 0,
        access: 0,
        kind: 0,
        name_at: 0,
        name_length: 0,
        offset: 0,
    };
    State {
        line: 0,
        begun: false,
        extents: 0,
        sum: 0,
        records: [none; 32],
        version: None,
        cid: None,
        parent_cid: None,
        create_type: None,
    }
}

// A line that says nothing.
#[tactic(auto, unfolding(descriptor::specs::Descriptor::skipped))]
pub fn skipped(st: &mut State)
    requires { Few 65536 st.old }
    ensures said { st.new ≡ skipped st.old }
    ensures few { Few (st.old.line + 1) st.new }
{
    st.line += 1;
}

// The first line.
#[tactic(auto, unfolding(descriptor::specs::Descriptor::opened))]
pub fn opened(st: &mut State)
    requires { Few 65536 st.old }
    ensures said { st.new ≡ opened st.old }
    ensures few { Few (st.old.line + 1) st.new }
{
    st.line += 1;
    st.begun = true;
}

// An extent; past 32 there is no record for it.
#[tactic(auto, unfolding(descriptor::specs::Descriptor::added))]
fn added(st: &mut State, e: Extent)
    requires few { Few 65536 st.old }
    requires sectors_bound { e.sectors ≤ 0x80000000 }
    ensures said { st.new ≡ added e st.old }
    ensures few { Few (st.old.line + 1) st.new }
{
    let at = st.extents as usize;
    if at < 32 {
        st.records[at] = e;
    }
    st.line += 1;
    st.extents += 1;
    st.sum += e.sectors;
}

// A required key comes once: a second line is at fault.
#[tactic(auto, unfolding(descriptor::specs::Descriptor::noted, descriptor::specs::Descriptor::once, base::specs::Pick::pick))]
fn once(st: &mut State, key: KeyValue) -> Result<(), TextRefusal>
    requires { Few 65536 st.old }
    ensures said { state_after result st.new ≡ once key st.old }
    ensures few { OnOk result (Few (st.old.line + 1) st.new) }
    ensures kept { OnErr result (st.new ≡ st.old) }
{
    match key {
        KeyValue::Version(n) if st.version.is_none() => st.version = Some(n),
        KeyValue::Cid(n) if st.cid.is_none() => st.cid = Some(n),
        KeyValue::ParentCid(n) if st.parent_cid.is_none() => st.parent_cid = Some(n),
        KeyValue::CreateType(quoted) if st.create_type.is_none() => st.create_type = Some(quoted),
        _ => return Err(TextRefusal::InLine(LineFault::BadKey, st.line + 1)),
    }
    st.line += 1;
    Ok(())
}

// What a line says is taken in.
pub fn taken(st: &mut State, said: Result<Line, LineFault>) -> Result<(), TextRefusal>
    requires few { Few 65536 st.old }
    requires bounded { IfOk said Bounded }
    ensures said { state_after result st.new ≡ taken st.old said }
    ensures few { OnOk result (Few (st.old.line + 1) st.new) }
    ensures kept { OnErr result (st.new ≡ st.old) }
{
    match said.map_err(|fault| TextRefusal::InLine(fault, st.line + 1))? {
        Line::Skip => skipped(st),
        Line::Holds(e) => added(st, e),
        Line::Key(key) => once(st, key)?,
    }
    Ok(())
}
