//! Bytes that are cut off, and bytes that mean nothing.
ghost use Rattle.std.specs.Prelude.{◌≡◌, ◌≤◌, take};
ghost use Rattle.damage_tool.specs.Draws.{draw_junk};

use crate::draws::{draw_below, draw_to};
use rand_pcg::Lcg64Xsh32;

/// The first `length` bytes, as a write that broke off leaves them; all bytes if there are no more
/// than that.
pub fn cut(bytes: &[u8], length: usize) -> &[u8]
    ensures { result.now ≡ take length bytes.now }
{
    if length < bytes.len() {
        &bytes[..length]
    } else {
        bytes
    }
}

/// Writes a line of junk, at most 40 bytes from `!` to `~`, and returns how many there are. The
/// caller has to write the newline.
pub fn junk_line(generator: &mut Lcg64Xsh32, line: &mut [u8; 41]) -> usize
    ensures room { result ≤ 40 }
    ensures drawn { (take result line.new, generator.new) ≡ draw_junk generator.old }
{
    let length = draw_to(generator, 40) as usize;
    for at in 0..length {
        line[at] = 33 + draw_below(generator, 94) as u8;
    }
    length
}
