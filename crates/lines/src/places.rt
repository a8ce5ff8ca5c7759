// Places in the text.
ghost use Rattle.std.specs.Prelude.{◌≡◌};
ghost use Rattle.descriptor.specs.Words.{quoted_place};
ghost use Rattle.lines.specs.LineBounds.{Within};

// The place of a quoted part is that of the byte after the opening quote, with which w, the end of a line, begins.
pub fn quoted_place(end: u64, w: &[u8]) -> u64
    requires { Within end w.now }
    ensures { result ≡ quoted_place end w.now }
{
    end - w.len() as u64 + 1
}
