//! Lengths on a page.
ghost use Rattle.std.specs.Prelude.{◌≡◌, ◌+◌, ◌-◌, ◌*◌, ◌/◌};
ghost use Rattle.svg_drawing.specs.Lengths.{px};

use std::ops::{Add, Mul, Sub};

/// A length, or a place from the left or the top, in units of the page. What is computed from
/// lengths stays between 0 and the greatest value.
#[derive(Clone, Copy, Debug)]
pub struct Px(pub u32);

impl Add for Px {
    type Output = Px;

    fn add(self, other: Px) -> Px
        ensures { result.0 ≡ px (self.0 + other.0) }
    {
        Px(self.0.saturating_add(other.0))
    }
}

impl Sub for Px {
    type Output = Px;

    fn sub(self, other: Px) -> Px
        ensures { result.0 ≡ self.0 - other.0 }
    {
        Px(self.0.saturating_sub(other.0))
    }
}

impl Mul<usize> for Px {
    type Output = Px;

    fn mul(self, count: usize) -> Px
        ensures { result.0 ≡ px (self.0 * count) }
    {
        let length = u64::from(self.0).saturating_mul(count as u64);
        if length <= 4_294_967_295 {
            Px(length as u32)
        } else {
            Px(u32::MAX)
        }
    }
}

impl Px {
    /// Half of it, rounded down.
    pub fn half(self) -> Px
        ensures { result.0 ≡ self.0 / 2 }
    {
        Px(self.0 / 2)
    }
}
