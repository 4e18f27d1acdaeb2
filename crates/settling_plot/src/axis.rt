//! The places of numbers on the page.
ghost use Rattle.std.specs.Prelude.{◌≡◌, ◌*◌, ◌/◌, ◌<◌, ◌≤◌, ◌^◌, ◌==◌, if◌then◌else◌};
ghost use Rattle.settling_plot.specs.Axes.{axis_to, part_of, place_of, powers_below, tick_of};
ghost use Rattle.settling_plot.specs.Axes.{x_of, right_of, height_of, IsAxis};

use svg_drawing::Px;

/// The left end of the axis of sweeps.
pub(crate) const LEFT: Px = Px(72);

/// The place of no runs, from the upper edge of the page.
pub(crate) const GROUND: Px = Px(378);

/// How far the place of all runs is above that of no runs.
const HEIGHT: Px = Px(240);

/// How wide the axis of sweeps is at most.
const WIDTH: u32 = 640;

/// The axis of sweeps. It begins at 0, reaches 1 after one step, and doubles with each step after
/// that.
#[derive(Clone, Copy)]
pub struct Axis {
    /// How many steps there are after the one from 0 to 1; at most 32.
    pub doublings: u32,
    /// The width of a step; at most 640.
    pub step: u32,
}

impl Axis {
    /// The axis up to the least power of two that is not below a number.
    pub fn to(most: u32) -> Axis
        ensures axis { result ≡ axis_to most }
        ensures within { IsAxis result }
    {
        let doublings = powers_below(most);
        Axis {
            doublings,
            step: WIDTH / (doublings + 1),
        }
    }

    /// The place of a number of sweeps.
    pub(crate) fn x(self, sweeps: u64) -> Px
        requires { IsAxis self }
        ensures { result.0 ≡ x_of self sweeps }
    {
        LEFT + Px(place_of(self.step, self.doublings, sweeps))
    }

    /// The place of the number that the axis reaches after this many doublings.
    pub(crate) fn tick(self, doublings: u32) -> Px
        ensures { result.0 ≡ tick_of self doublings }
    {
        LEFT + Px(self.step) * (doublings as usize) + Px(self.step)
    }

    /// The right end.
    pub(crate) fn right(self) -> Px
        ensures { result.0 ≡ right_of self }
    {
        self.tick(self.doublings)
    }
}

/// A power of two.
pub(crate) fn power(k: u32) -> u64
    requires { k ≤ 32 }
    ensures power { result ≡ 2 ^ k }
    ensures some { 0 < result }
    ensures few { result ≤ 4294967296 }
{
    1 << k
}

/// How many of the first 32 powers of two are below a number.
fn powers_below(most: u32) -> u32
    ensures count { result ≡ powers_below most 32 }
    ensures few { result ≤ 32 }
{
    let mut count = 0u32;
    for k in 0u32..32 {
        count += u32::from(power(k) < u64::from(most));
    }
    count
}

/// How far a number of sweeps is from the left end of an axis with these steps.
fn place_of(step: u32, doublings: u32, sweeps: u64) -> u32
    requires doublings { doublings ≤ 32 }
    requires step { step ≤ 640 }
    ensures { result ≡ place_of step doublings sweeps }
{
    let mut place = first_step(step, sweeps);
    for k in 0u32..doublings {
        place += part_of(step, k, sweeps);
    }
    place
}

/// How much of the step from 0 to 1 is to the left of a number of sweeps.
fn first_step(step: u32, sweeps: u64) -> u32
    ensures { result ≡ (if sweeps == 0 then 0 else step) }
{
    if sweeps == 0 { 0 } else { step }
}

/// How much of the step from a power of two to its double is to the left of a number of sweeps.
fn part_of(step: u32, k: u32, sweeps: u64) -> u32
    requires k { k ≤ 32 }
    requires step { step ≤ 640 }
    ensures part { result ≡ part_of step (2 ^ k) sweeps }
    ensures within { result ≤ 640 }
{
    share_of(
        step,
        sweeps.saturating_sub(power(k)).min(power(k)),
        power(k),
    )
}

/// The same part of a step as `beyond` is of `power`, rounded down.
fn share_of(step: u32, beyond: u64, power: u64) -> u32
    requires step { step ≤ 640 }
    requires beyond { beyond ≤ power }
    requires some { 0 < power }
    requires few { power ≤ 4294967296 }
    ensures part { result ≡ step * beyond / power }
    ensures within { result ≤ 640 }
{
    let product = u64::from(step) * beyond;
    let part = product / power;
    part as u32
}

/// The place of a number of runs, out of all of them.
pub(crate) fn height(runs: u32, count: usize) -> Px
    ensures { result.0 ≡ height_of runs count }
{
    let over = HEIGHT * count;
    GROUND - Px(over.0 / runs.max(1))
}
