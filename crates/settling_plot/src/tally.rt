//! How many runs have each number.
ghost use Rattle.std.specs.Prelude.{◌≡◌, ◌+◌, ◌<◌, ◌^◌, ℕ, IfOk, length, slice_index_or};
ghost use Rattle.settling_plot.specs.Tallies.{IsCountedIn, IsTally};

use std::alloc::{AllocError, Global};

/// How many of these numbers are 0, how many are 1, and so on up to `last`; greater ones are not
/// counted.
pub(crate) fn tally(alloc: Global, numbers: &[u64], last: u32) -> Result<Vec<usize>, AllocError>
    ensures tally { IfOk result (λ tally. IsTally numbers.now last tally.items) }
    ensures few { IfOk result (λ _. length numbers.now < 2 ^ 64) }
{
    let room = last as usize + 1;
    let mut tally = vec![in alloc; 0usize; room]?;
    for number in numbers {
        count(tally.as_mut_slice(), *number);
    }
    Ok(tally)
}

/// Counts one more number.
fn count(tally: &mut [usize], number: u64)
    requires { number < length tally.old → slice_index_or tally.old number 0 < 2 ^ 63 }
    ensures { IsCountedIn tally.old number tally.new }
{
    if number < tally.len() as u64 {
        tally[number as usize] += 1;
    }
}
