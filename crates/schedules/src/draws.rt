//! Numbers, drawn from a generator.
ghost use Rattle.std.specs.Prelude.{◌≡◌, ◌<◌};
ghost use Rattle.damage_tool.specs.Draws.{draw};

use rand_core::utils::NextWord;
use rand_pcg::Lcg64Xsh32;

/// A number below `values`: the generator's next word modulo `values`.
pub(crate) fn draw_below(generator: &mut Lcg64Xsh32, values: u32) -> u32
    requires { 0 < values }
    ensures drawn { result ≡ (draw values generator.old).0 }
    ensures generator { generator.new ≡ (draw values generator.old).1 }
    ensures below { result < values }
{
    generator.next_word() % values
}
