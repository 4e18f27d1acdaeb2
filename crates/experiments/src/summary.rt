//! The least, the median and the most of some numbers.
ghost use Rattle.experiments.specs.Summary.{IsSummaryOf};

/// The least, the median and the most of some numbers.
#[derive(Clone, Copy)]
pub struct ThreeNumberSummary {
    /// The least.
    pub least: u64,
    /// The median: of an even count, the lower one of the two in the middle.
    pub median: u64,
    /// The greatest.
    pub most: u64,
}

/// Sorts the numbers, and gives the least, the median and the most of them; none if there is no
/// number.
pub fn summary_of(numbers: &mut [u64]) -> Option<ThreeNumberSummary>
    ensures { IsSummaryOf numbers.old result }
{
    numbers.sort_unstable();
    let last = numbers.len().checked_sub(1)?;
    Some(ThreeNumberSummary {
        least: numbers[0],
        median: numbers[last / 2],
        most: numbers[last],
    })
}
