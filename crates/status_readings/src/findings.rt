//! What three readings of a network say: whether it serves as it should, as far as readings can say.
ghost use Rattle.std.specs.Prelude.{◌≡◌};
ghost use Rattle.std.specs.List.{list_any, find};
ghost use Rattle.status_readings.specs.Report.{has_answered};
ghost use Rattle.status_readings.specs.Verdict.{is_true, is_faulty, fault_of, first_fault, is_nobody};
ghost use Rattle.status_readings.specs.Verdict.{two_lend, finding, severity, severity_status, severity_word};

use crate::answers::NodeAnswer;
use crate::counts::{has_answered, lending};
use node_texts::StatusLine;
use topology::Net;

/// What was found of a network.
#[derive(Clone, Copy, Drop)]
pub enum Finding {
    /// In each reading every node that was asked answers, with the true distance and parent of the
    /// node that its line names, and at most one lends.
    AllWell,
    /// This node gave no answer in a reading.
    Silent(u16),
    /// This node answered with an id that is none of the network's nodes, or with a distance or
    /// parent that is wrong for the node of that id.
    Wrong(u16),
    /// Two or more lent in a reading, but not in each reading.
    TwoLentOnce,
    /// Nobody answered in any reading.
    Nobody,
    /// Two or more lent in each reading.
    TwoLend,
}

/// How bad what was found is, as plugins of monitors say it.
#[derive(Clone, Copy, Drop)]
pub enum Severity {
    /// All is well.
    Fine,
    /// A node is silent or wrong, or two or more lent in a reading, but not in each.
    Warning,
    /// No node answers, or two or more lend in each reading.
    Critical,
    /// The network could not be looked at.
    Unknown,
}

impl Severity {
    /// The status to end with: 0 to 3.
    pub fn status(&self) -> u8
        ensures { result ≡ severity_status self.now }
    {
        match self {
            Severity::Fine => 0,
            Severity::Warning => 1,
            Severity::Critical => 2,
            Severity::Unknown => 3,
        }
    }

    /// The word of its line.
    pub fn word(&self) -> &'static str
        ensures { result.now ≡ severity_word self.now }
    {
        match self {
            Severity::Fine => "OK",
            Severity::Warning => "WARNING",
            Severity::Critical => "CRITICAL",
            Severity::Unknown => "UNKNOWN",
        }
    }
}

impl Finding {
    /// How bad it is.
    pub fn severity(&self) -> Severity
        ensures { result ≡ severity self.now }
    {
        match self {
            Finding::AllWell => Severity::Fine,
            Finding::Silent(_) | Finding::Wrong(_) | Finding::TwoLentOnce => Severity::Warning,
            Finding::Nobody | Finding::TwoLend => Severity::Critical,
        }
    }
}

/// What three readings of the nodes of a network say. The worst comes first: that nobody answers in
/// any reading; that two or more lend in each; then the first node that is silent or wrong in the
/// first reading that has one; then that two or more lend in some reading.
pub fn verdict(
    net: &Net,
    first: &[NodeAnswer],
    second: &[NodeAnswer],
    third: &[NodeAnswer],
) -> Finding
    ensures { result ≡ finding net.now first.now second.now third.now }
{
    if is_nobody(first) && is_nobody(second) && is_nobody(third) {
        return Finding::Nobody;
    }
    if two_lend(first) && two_lend(second) && two_lend(third) {
        return Finding::TwoLend;
    }
    if let Some(fault) = first_fault(net, first) {
        return fault;
    }
    if let Some(fault) = first_fault(net, second) {
        return fault;
    }
    if let Some(fault) = first_fault(net, third) {
        return fault;
    }
    if two_lend(first) || two_lend(second) || two_lend(third) {
        Finding::TwoLentOnce
    } else {
        Finding::AllWell
    }
}

/// Whether nobody answered.
fn is_nobody(answers: &[NodeAnswer]) -> bool
    ensures { result ≡ is_nobody answers.now }
{
    !is_anybody(answers)
}

/// Whether somebody answered.
fn is_anybody(answers: &[NodeAnswer]) -> bool
    ensures { result ≡ list_any has_answered answers.now }
{
    answers.iter().any(|answer| has_answered(answer))
}

/// Whether two or more lend.
fn two_lend(answers: &[NodeAnswer]) -> bool
    ensures { result ≡ two_lend answers.now }
{
    lending(answers) >= 2
}

/// The fault of the first node that is silent or wrong.
fn first_fault(net: &Net, answers: &[NodeAnswer]) -> Option<Finding>
    ensures { result ≡ first_fault net.now answers.now }
{
    first_faulty(net, answers).map(fault_of)
}

/// The answer of the first node that is silent or wrong.
fn first_faulty(net: &Net, answers: &[NodeAnswer]) -> Option<NodeAnswer>
    ensures { result ≡ find (is_faulty net.now) answers.now }
{
    answers
        .iter()
        .copied()
        .find(|answer| is_faulty(net, answer))
}

/// Whether a node is silent or wrong.
pub fn is_faulty(net: &Net, answer: &NodeAnswer) -> bool
    ensures { result ≡ is_faulty net.now answer.now }
{
    match answer.line {
        Some(line) => !is_true(net, &line),
        None => true,
    }
}

/// What is found of a node that is silent or wrong.
fn fault_of(answer: NodeAnswer) -> Finding
    ensures { result ≡ fault_of answer }
{
    match answer.line {
        Some(_) => Finding::Wrong(answer.node),
        None => Finding::Silent(answer.node),
    }
}

/// Whether a node is one of the network, with the distance and the parent that the network gives.
fn is_true(net: &Net, line: &StatusLine) -> bool
    ensures { result ≡ is_true net.now line.now }
{
    line.node < net.nodes()
        && line.distance == net.distance(line.node)
        && line.parent == net.parent(line.node)
}
