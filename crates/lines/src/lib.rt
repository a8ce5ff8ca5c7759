// What one line of a descriptor says: nothing, an extent, a required key; or why it is refused.
#![tactic(auto)]

ghost use Rattle.std.specs.Prelude.{◌≡◌, IfOk};
ghost use Rattle.descriptor.specs.Line.{line};
ghost use Rattle.lines.specs.LineBounds.{Within, Bounded};

use descriptor::{Line, LineFault};

mod extents;
mod keys;
mod places;

// What the trimmed line w says: `first` is the first virtual sector of the extent that it may be, `end` the place where it
// ends. A line whose first word is an access is an extent; empty lines and lines starting with # are skipped.
#[tactic(auto, unfolding(descriptor::specs::Line::line_with, base::specs::Pick::pick))]
pub fn line(first: u64, end: u64, w: &[u8]) -> Result<Line, LineFault>
    requires { Within end w.now }
    ensures said { result ≡ line first end w.now }
    ensures bounded { IfOk result Bounded }
{
    if w.is_empty() || w[0] == b'#' {
        return Ok(Line::Skip);
    }
    match extents::access(words::word(w)) {
        None => keys::key_line(end, w),
        Some(access) => extents::extent_line(first, end, access, w)
            .map(Line::Holds)
            .ok_or(LineFault::BadExtent),
    }
}
