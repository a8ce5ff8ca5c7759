// A line that is key = value, `end` the place where it ends. A line of no form is 32, a required key that is malformed 33.
ghost use Rattle.std.specs.Prelude.{◌≡◌, length, option_and_then, IfOk};
ghost use Rattle.descriptor.specs.Words.{decimal_value, quoted_place, quoted_length};
ghost use Rattle.descriptor.specs.Keys.{key_of, version_is, create_type_is, value_of, key_line};
ghost use Rattle.lines.specs.LineBounds.{Within, Bounded};

use super::places::quoted_place;
use descriptor::{Key, KeyValue, Line, LineFault, Quoted, Stop};

// The required key that a word is.
#[tactic(auto, unfolding(descriptor::specs::Keys::key_of, base::specs::Pick::pick))]
fn key(w: &[u8]) -> Option<Key>
    ensures { result ≡ key_of w.now }
{
    if base::same_word(w, b"version") {
        Some(Key::Version)
    } else if base::same_word(w, b"cid") {
        Some(Key::Cid)
    } else if base::same_word(w, b"parentcid") {
        Some(Key::ParentCid)
    } else if base::same_word(w, b"createtype") {
        Some(Key::CreateType)
    } else {
        None
    }
}

// Versions are 1 to 3.
#[tactic(auto, unfolding(descriptor::specs::Keys::version_is, base::specs::Pick::pick))]
fn version(v: &[u8]) -> Option<u64>
    ensures { result ≡ option_and_then version_is (decimal_value v.now) }
{
    words::decimal(v).filter(|n| matches!(*n, 1..=3))
}

// createType is quoted, no quote inside, and nothing stands after it.
#[tactic(auto, unfolding(descriptor::specs::Keys::create_type_is, base::specs::Pick::pick))]
fn create_type(end: u64, v: &[u8]) -> Option<Quoted>
    requires { Within end v.now }
    ensures { result ≡ option_and_then (create_type_is (quoted_place end v.now) (length v.now)) (quoted_length v.now) }
{
    let length = words::quoted_length(v)?;
    if v.len() != length + 2 {
        return None;
    }
    Some(Quoted {
        at: quoted_place(end, v),
        length: length as u64,
    })
}

// The value v of a required key; CID and parentCID are 1 to 8 hex digits.
#[tactic(auto, unfolding(descriptor::specs::Keys::value_of))]
fn value(end: u64, key: Key, v: &[u8]) -> Option<KeyValue>
    requires { Within end v.now }
    ensures { result ≡ value_of end key v.now }
{
    match key {
        Key::Version => version(v).map(KeyValue::Version),
        Key::Cid => words::hex(v).map(KeyValue::Cid),
        Key::ParentCid => words::hex(v).map(KeyValue::ParentCid),
        Key::CreateType => create_type(end, v).map(KeyValue::CreateType),
    }
}

// The line w, split at the first =, with both sides trimmed. Keys that are not required are skipped.
#[tactic(auto, unfolding(descriptor::specs::Keys::split_at, descriptor::specs::Keys::with_key, base::specs::Pick::pick))]
pub fn key_line(end: u64, w: &[u8]) -> Result<Line, LineFault>
    requires { Within end w.now }
    ensures said { result ≡ key_line end w.now }
    ensures bounded { IfOk result Bounded }
{
    let n = words::count_before(w, Stop::Byte(b'='));
    if n == w.len() {
        return Err(LineFault::NoForm);
    }
    let name = words::trim_end(&w[..n]);
    if name.is_empty() {
        return Err(LineFault::NoForm);
    }
    let Some(key) = key(name) else {
        return Ok(Line::Skip);
    };
    let v = words::trim_start(&w[n + 1..]);
    value(end, key, v).map(Line::Key).ok_or(LineFault::BadKey)
}
