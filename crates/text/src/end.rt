// The end of a text: what only all lines together can tell.
ghost use Rattle.std.specs.Prelude.{◌≡◌};
ghost use Rattle.descriptor.specs.Descriptor.{judged_end, ended};
ghost use Rattle.text.specs.StateBounds.{parsed_after};

use descriptor::{Described, State, TextRefusal};

// All required keys came. Then there are 1 to 32 extents, and their sum is at most 2^31.
#[tactic(auto, unfolding(descriptor::specs::Descriptor::judged_end, base::specs::Pick::pick))]
fn judged_end(st: &State) -> Result<Described, TextRefusal>
    ensures { parsed_after result st.now ≡ judged_end st.now }
{
    let version = st.version.ok_or(TextRefusal::KeyMissing)?;
    let cid = st.cid.ok_or(TextRefusal::KeyMissing)?;
    let parent_cid = st.parent_cid.ok_or(TextRefusal::KeyMissing)?;
    let create_type = st.create_type.ok_or(TextRefusal::KeyMissing)?;
    if st.extents == 0 || 32 < st.extents || 0x80000000 < st.sum {
        return Err(TextRefusal::BadExtents);
    }
    Ok(Described {
        number: 0,
        place: 0,
        extents: st.extents,
        version,
        cid,
        parent_cid,
        type_at: create_type.at,
        type_length: create_type.length,
    })
}

// After the last line; where all were empty, the first line is missing.
#[tactic(auto, unfolding(descriptor::specs::Descriptor::ended, base::specs::Pick::pick))]
pub fn ended(st: &State) -> Result<Described, TextRefusal>
    ensures { parsed_after result st.now ≡ ended st.now }
{
    if !st.begun {
        return Err(TextRefusal::NoFirstLine);
    }
    judged_end(st)
}
