// The call on a disk of several files, told in a line.
#![tactic(auto)]

ghost use Rattle.std.specs.Prelude.{◌≤◌, length};

use std::io;

// The first length is the text's, which the files follow; the others are those of at most 16 extents. The text may end with the
// bytes.
pub fn look(rt: &impl Print, bytes: &[u8], lengths: &[u8], sector: u64) -> io::Result<()>
    requires { length lengths.now ≤ 136 }
{
    let numbers = programs::numbers_of(lengths);
    let Some((text, extents)) = numbers[..lengths.len() / 8].split_first() else {
        return Ok(());
    };
    let (text, files) = bytes.split_at((*text as usize).min(bytes.len()));
    let answer = split::split(text, files, extents, sector);
    programs::put_located(rt, b"split ", split::numbers::split_of(answer))
}
