//! The step that comes next.
ghost use Rattle.std.specs.Prelude.{◌≡◌, ◌≤◌, length, None, Some};
ghost use Rattle.record_order.specs.Order.{is_met, earlier, ready_instant, node_of};
ghost use Rattle.record_order.specs.Order.{IsEarliest};

/// How far another node's record must have come.
#[derive(Clone, Copy, Debug, PartialEq, Eq)]
pub struct Need {
    /// The node.
    pub node: usize,
    /// How many steps of its record come first.
    pub count: usize,
}

/// An entry of a record, as far as its place in the order depends on it.
#[derive(Clone, Copy, Debug, PartialEq, Eq)]
pub struct Step {
    /// When it was, in microseconds of its node's clock.
    pub instant: u64,
    /// What must have come before it in another node's record, if anything.
    pub need: Option<Need>,
}

/// The node whose next step is the earliest that is ready; if several have this instant, the first
/// of these nodes. None if no step is ready. `heads` has the next step of each, and none for a
/// record that is read to its end; `read` says how many steps of each record were read.
pub fn next_ready(heads: &[Option<Step>], read: &[usize]) -> Option<usize>
    ensures { IsEarliest read.now heads.now (length heads.now) result }
{
    let mut first = None;
    for (node, head) in heads.iter().enumerate() {
        first = earlier(first, node, ready_instant(head, read));
    }
    node_of(first)
}

/// The node of the step that was found.
fn node_of(first: Option<(usize, u64)>) -> Option<usize>
    ensures { result ≡ node_of first }
{
    first.map(|(node, _)| node)
}

/// The earlier of two steps, of which each may be none; of two of the same instant, the first.
fn earlier(first: Option<(usize, u64)>, node: usize, instant: Option<u64>) -> Option<(usize, u64)>
    ensures { result ≡ earlier first node instant }
{
    match (first, instant) {
        (_, None) => first,
        (Some((_, least)), Some(instant)) if least <= instant => first,
        (_, Some(instant)) => Some((node, instant)),
    }
}

/// The instant of a next step that is ready.
fn ready_instant(head: &Option<Step>, read: &[usize]) -> Option<u64>
    ensures { result ≡ ready_instant read.now head.now }
{
    match head {
        Some(step) if is_met(step.need, read) => Some(step.instant),
        _ => None,
    }
}

/// Whether as much of another record was read as a step needs.
fn is_met(need: Option<Need>, read: &[usize]) -> bool
    ensures { result ≡ is_met read.now need }
{
    match need {
        Some(Need { node, count }) => count <= read.get(node).copied().unwrap_or(0),
        None => true,
    }
}
