// An extent line: access, sectors, type, quoted name, offset, read from left to right; none where one of them is at fault. In
// the parameters `first` is the extent's first virtual sector, `end` the place where the line ends, v what is left of the line.
ghost use Rattle.std.specs.Prelude.{◌≡◌, ◌≤◌, IfSome};
ghost use Rattle.descriptor.specs.Words.{after_word};
ghost use Rattle.descriptor.specs.Extents.{access_of, type_of, blanks_then_decimal, offset_of};
ghost use Rattle.descriptor.specs.Extents.{from_name, with_type, from_type, from_sectors};
ghost use Rattle.lines.specs.LineBounds.{Within};

use super::places::quoted_place;
use descriptor::{Access, Extent, Kind, Stop};

// The access that a word is.
#[tactic(auto, unfolding(descriptor::specs::Extents::access_of, base::specs::Pick::pick))]
pub fn access(w: &[u8]) -> Option<Access>
    ensures { result ≡ access_of w.now }
{
    if base::same_word(w, b"rw") {
        Some(Access::ReadWrite)
    } else if base::same_word(w, b"rdonly") {
        Some(Access::ReadOnly)
    } else if base::same_word(w, b"noaccess") {
        Some(Access::NoAccess)
    } else {
        None
    }
}

// The type that a word is.
#[tactic(auto, unfolding(descriptor::specs::Extents::type_of, base::specs::Pick::pick))]
fn kind(w: &[u8]) -> Option<Kind>
    ensures { result ≡ type_of w.now }
{
    if base::same_word(w, b"flat") {
        Some(Kind::Flat)
    } else if base::same_word(w, b"vmfs") {
        Some(Kind::Vmfs)
    } else if base::same_word(w, b"sparse") {
        Some(Kind::Sparse)
    } else if base::same_word(w, b"vmfssparse") {
        Some(Kind::VmfsSparse)
    } else if base::same_word(w, b"zero") {
        Some(Kind::Zero)
    } else {
        None
    }
}

// The decimal in v, behind the one or more spaces or tabs that v starts with.
#[tactic(auto, unfolding(descriptor::specs::Extents::blanks_then_decimal_at, base::specs::Pick::pick))]
fn blanks_then_decimal(v: &[u8]) -> Option<u64>
    ensures { result ≡ blanks_then_decimal v.now }
{
    let blanks = words::count_before(v, Stop::NotBlank);
    if blanks == 0 {
        return None;
    }
    words::decimal(&v[blanks..])
}

// After the name: FLAT needs an offset, VMFS has maybe one (else 0), SPARSE and VMFSSPARSE have a name only.
#[tactic(auto, unfolding(descriptor::specs::Extents::offset_of, base::specs::Pick::pick))]
fn offset(kind: Kind, v: &[u8]) -> Option<u64>
    ensures { result ≡ offset_of kind v.now }
{
    match kind {
        Kind::Flat => blanks_then_decimal(v),
        Kind::Vmfs if !v.is_empty() => blanks_then_decimal(v),
        _ if v.is_empty() => Some(0),
        _ => None,
    }
}

// v is the quoted name and what stands after it. Names have 1 to 255 bytes, offsets are 0 to 2^32-1.
#[tactic(auto, unfolding(descriptor::specs::Extents::from_name, base::specs::Pick::pick))]
fn from_name(
    first: u64,
    end: u64,
    access: Access,
    sectors: u64,
    kind: Kind,
    v: &[u8],
) -> Option<Extent>
    requires { Within end v.now }
    ensures said { result ≡ from_name first end access sectors kind v.now }
    ensures sectors { IfSome result (λ e. e.sectors ≡ sectors) }
{
    let name_length = words::quoted_length(v)?;
    let offset = offset(kind, words::after_quoted(v, name_length))?;
    if name_length == 0 || 255 < name_length || 0xffffffff < offset {
        return None;
    }
    Some(Extent {
        first,
        sectors,
        access: access.number(),
        kind: kind.number(),
        name_at: quoted_place(end, v),
        name_length: name_length as u64,
        offset,
    })
}

// ZERO has neither name nor offset, every other type needs a name. What a line doesn't have is 0.
#[tactic(auto, unfolding(descriptor::specs::Extents::with_type, base::specs::Pick::pick))]
fn with_type(
    first: u64,
    end: u64,
    access: Access,
    sectors: u64,
    kind: Kind,
    v: &[u8],
) -> Option<Extent>
    requires { Within end v.now }
    ensures said { result ≡ with_type first end access sectors v.now kind }
    ensures sectors { IfSome result (λ e. e.sectors ≡ sectors) }
{
    match kind {
        Kind::Zero if v.is_empty() => Some(Extent {
            first,
            sectors,
            access: access.number(),
            kind: kind.number(),
            name_at: 0,
            name_length: 0,
            offset: 0,
        }),
        Kind::Zero => None,
        kind => from_name(first, end, access, sectors, kind, v),
    }
}

// v is the type and what stands after it.
fn from_type(first: u64, end: u64, access: Access, sectors: u64, v: &[u8]) -> Option<Extent>
    requires { Within end v.now }
    ensures said { result ≡ from_type first end access sectors v.now }
    ensures sectors { IfSome result (λ e. e.sectors ≡ sectors) }
{
    let kind = kind(words::word(v))?;
    with_type(first, end, access, sectors, kind, words::after_word(v))
}

// v is the sectors, 1 to 2^31, and what stands after them.
#[tactic(auto, unfolding(descriptor::specs::Extents::with_sectors, base::specs::Pick::pick))]
fn from_sectors(first: u64, end: u64, access: Access, v: &[u8]) -> Option<Extent>
    requires { Within end v.now }
    ensures said { result ≡ from_sectors first end access v.now }
    ensures bounded { IfSome result (λ e. e.sectors ≤ 0x80000000) }
{
    let sectors = words::decimal(words::word(v))?;
    if sectors == 0 || 0x80000000 < sectors {
        return None;
    }
    from_type(first, end, access, sectors, words::after_word(v))
}

// The line w, which begins with its access.
pub fn extent_line(first: u64, end: u64, access: Access, w: &[u8]) -> Option<Extent>
    requires { Within end w.now }
    ensures said { result ≡ from_sectors first end access (after_word w.now) }
    ensures bounded { IfSome result (λ e. e.sectors ≤ 0x80000000) }
{
    from_sectors(first, end, access, words::after_word(w))
}
