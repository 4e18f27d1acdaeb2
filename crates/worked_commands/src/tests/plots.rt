//! Plots of runs that no command makes: one of four runs has not served, or there are no runs.
use settling_plot::{Distribution, Figure, plotted};
use std::alloc::Global;
use std::test::Fail;
use test_parts::as_expected;

/// A distribution of these numbers of sweeps.
fn distribution(alloc: Global, sweeps: &[u64], bound: u32) -> Result<Distribution, Fail> {
    let mut all = Vec::new(alloc);
    all.extend_from_slice(sweeps)?;
    Ok(Distribution { sweeps: all, bound })
}

/// Four runs of two nodes, of which three served.
fn figure(alloc: Global) -> Result<Figure, Fail> {
    Ok(Figure {
        nodes: 2,
        runs: 4,
        seed: 7,
        links: distribution(alloc, &[1, 3, 1], 6)?,
        tree: distribution(alloc, &[2, 4, 2], 18)?,
        ring: distribution(alloc, &[5, 8, 3], 34)?,
        served: distribution(alloc, &[1, 35, 2], 35)?,
    })
}

/// A figure of no runs, whose bounds are small.
fn empty_figure(alloc: Global) -> Result<Figure, Fail> {
    Ok(Figure {
        nodes: 2,
        runs: 0,
        seed: 0,
        links: distribution(alloc, &[], 1)?,
        tree: distribution(alloc, &[], 1)?,
        ring: distribution(alloc, &[], 0)?,
        served: distribution(alloc, &[], 1)?,
    })
}

/// The axis goes on to 64, in seven steps of 91 units: 1 is at 163, 2 at 254, 3 at 299, 4 at 345, 5
/// at 367, 8 at 436, 35 at 626, and its end at 709. Two of four runs are at 258, three at 198.
const PARTS: [&str; 5] = [
    "4 runs of 2 nodes from scrambled worlds, seeds from 7 on; 3 of them served by sweep 35",
    "\"M72 378H163V258H299V198H709\"",
    "\"M72 378H254V258H345V198H709\"",
    "\"M72 378H299V318H367V258H436V198H709\"",
    "\"M72 378H163V318H254V258H626V198H709\"",
];

/// On an axis of one step no curve leaves the ground.
const EMPTY_PARTS: [&str; 3] = [
    "0 runs of 2 nodes from scrambled worlds, seeds from 0 on; 0 of them served by sweep 1",
    "\"M72 378H712\"",
    "\"M712 378L712 66\"",
];

/// The place of the first part that is missing from a figure's plot.
fn first_missing(alloc: Global, figure: &Figure, parts: &[&str]) -> Result<Option<usize>, Fail> {
    let text = plotted(alloc, figure)?;
    let text = str::from_utf8(text.as_slice())?;
    for (at, part) in parts.iter().enumerate() {
        if !text.contains(*part) {
            return Ok(Some(at));
        }
    }
    Ok(None)
}

/// The first missing part of the plot of four runs, and of the plot of no runs.
fn missing(alloc: Global) -> Result<(Option<usize>, Option<usize>), Fail> {
    let late = first_missing(alloc, &figure(alloc)?, &PARTS)?;
    Ok((
        late,
        first_missing(alloc, &empty_figure(alloc)?, &EMPTY_PARTS)?,
    ))
}

#[test]
fn curves_are_as_high_as_the_share_that_served(rt: HostRuntime) -> Result<(), Fail> {
    as_expected(missing(rt.alloc()), &(None, None))
}
