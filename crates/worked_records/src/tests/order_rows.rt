//! The order of what three nodes did, by records whose clocks differ.
use record_order::{Need, Step, next_ready};
use std::test::Fail;
use test_parts::as_expected;

/// A step: its instant, and which node must have done how many steps before it, if any.
type Row = (u64, Option<(usize, usize)>);

/// The next step of a record.
fn head(record: &[Row], read: usize) -> Option<Step> {
    let (instant, need) = record.get(read).copied()?;
    Some(Step {
        instant,
        need: need.map(|(node, count)| Need { node, count }),
    })
}

/// The place of the first node in `wanted` that is not chosen; their number, if one more is chosen
/// after them.
fn first_unlike(records: &[&[Row]; 3], wanted: &[usize]) -> Option<usize> {
    let mut read = [0usize; 3];
    for (at, node) in wanted.iter().enumerate() {
        if chosen(records, &read) != Some(*node) {
            return Some(at);
        }
        if let Some(count) = read.get_mut(*node) {
            *count = count.saturating_add(1);
        }
    }
    chosen(records, &read).map(|_| wanted.len())
}

/// The node that is chosen after this many steps of each record.
fn chosen(records: &[&[Row]; 3], read: &[usize; 3]) -> Option<usize> {
    let [first, second, third] = *records;
    let heads = [
        head(first, read[0]),
        head(second, read[1]),
        head(third, read[2]),
    ];
    next_ready(&heads, read)
}

/// Node 0 sends at 9 and ticks at 20. Node 1, whose clock is slow, takes that frame at 5 and sends
/// at 6; node 2 takes that at 1.
const LATE: [&[Row]; 3] = [
    &[(9, None), (20, None)],
    &[(5, Some((0, 1))), (6, None)],
    &[(1, Some((1, 2)))],
];

#[test]
fn takes_come_after_their_sends(_rt: HostRuntime) -> Result<(), Fail> {
    as_expected(Ok(first_unlike(&LATE, &[0, 1, 1, 2, 0])), &None)
}

/// If all are ready, the order is by instants, and at one instant by nodes.
const FREE: [&[Row]; 3] = [
    &[(3, None), (7, None)],
    &[(2, None), (7, None)],
    &[(7, None)],
];

#[test]
fn else_by_instants(_rt: HostRuntime) -> Result<(), Fail> {
    as_expected(Ok(first_unlike(&FREE, &[1, 0, 0, 1, 2])), &None)
}

/// Two nodes that each take what the other sends after its own take: there is no order.
const KNOT: [&[Row]; 3] = [
    &[(1, Some((1, 2))), (2, None)],
    &[(1, Some((0, 2))), (2, None)],
    &[(9, None)],
];

#[test]
fn a_knot_has_no_order(_rt: HostRuntime) -> Result<(), Fail> {
    as_expected(Ok(first_unlike(&KNOT, &[2])), &None)
}
