//! The line that a check prints.
ghost use Rattle.std.specs.Prelude.{◌≡◌, length, filter, Some};
ghost use Rattle.status_readings.specs.CheckText.{figures, is_wrong, finding_text, figure_text};
ghost use Rattle.status_readings.specs.CheckText.{figures_text, check_line};

use crate::answers::NodeAnswer;
use crate::counts::{answering, has_answered, lending, privileged};
use crate::findings::{Finding, is_faulty};
use std::fmt;
use topology::Net;

/// The figures of a reading.
#[derive(Clone, Copy, Drop)]
pub struct Figures {
    /// How many nodes were asked.
    pub nodes: usize,
    /// How many answered.
    pub answering: usize,
    /// How many of them have a wrong distance or parent by the network, or an id that is none of
    /// its nodes.
    pub wrong: usize,
    /// How many are privileged.
    pub privileged: usize,
    /// How many lend.
    pub lending: usize,
}

impl Figures {
    /// The figures of what the nodes of a network answered.
    pub fn of(net: &Net, answers: &[NodeAnswer]) -> Figures
        ensures { result ≡ figures net.now answers.now }
    {
        Figures {
            nodes: answers.len(),
            answering: answering(answers),
            wrong: wrong(net, answers),
            privileged: privileged(answers),
            lending: lending(answers),
        }
    }
}

/// How many nodes answered with a wrong distance or parent by the network, or with an id that is
/// none of its nodes.
fn wrong(net: &Net, answers: &[NodeAnswer]) -> usize
    ensures { result ≡ length (filter (is_wrong net.now) answers.now) }
{
    answers
        .iter()
        .filter(|answer| is_wrong(net, answer))
        .count()
}

/// Whether a node answered with a wrong distance or parent by the network, or with an id that is
/// none of its nodes.
fn is_wrong(net: &Net, answer: &NodeAnswer) -> bool
    ensures { result ≡ is_wrong net.now answer.now }
{
    has_answered(answer) && is_faulty(net, answer)
}

impl fmt::Display for Finding {
    ghost output = { λ finding. Some (finding_text finding) };

    fn fmt<W: fmt::Write>(&self, f: &mut fmt::Formatter<W>) -> fmt::Result {
        match *self {
            Finding::AllWell => f.write_str("each node is in its place, and at most one lends"),
            Finding::Silent(node) => write!(f, "node {node} does not answer"),
            Finding::Wrong(node) => write!(f, "node {node} has a wrong distance or parent"),
            Finding::TwoLentOnce => f.write_str("two nodes lent in a reading, but not in each"),
            Finding::Nobody => f.write_str("no node answers"),
            Finding::TwoLend => f.write_str("two nodes lend in each reading"),
        }
    }
}

/// A count of nodes. Printed, it is a figure of the line, with a space in front.
#[derive(Clone, Copy, Drop)]
struct NodeCount {
    /// What is counted.
    label: &'static str,
    /// How many there are.
    value: usize,
    /// How many there can be.
    most: usize,
}

impl NodeCount {
    /// A count of `value` nodes out of at most `most`.
    fn new(label: &'static str, value: usize, most: usize) -> NodeCount
        ensures label { result.label.now ≡ label.now }
        ensures counts { (result.value ≡ value) × (result.most ≡ most) }
    {
        NodeCount { label, value, most }
    }
}

impl fmt::Display for NodeCount {
    ghost output = { λ figure. Some (figure_text figure.label.now figure.value figure.most) };

    #[tactic(auto, unfolding(crate::specs::CheckText::figure_text))]
    fn fmt<W: fmt::Write>(&self, f: &mut fmt::Formatter<W>) -> fmt::Result {
        write!(f, " {}={};;;0;{}", self.label, self.value, self.most)
    }
}

impl fmt::Display for Figures {
    ghost output = { λ figures. Some (figures_text figures) };

    fn fmt<W: fmt::Write>(&self, f: &mut fmt::Formatter<W>) -> fmt::Result {
        write!(
            f,
            "{}{}{}{}{}",
            NodeCount::new("nodes", self.nodes, self.nodes),
            NodeCount::new("answering", self.answering, self.nodes),
            NodeCount::new("wrong", self.wrong, self.nodes),
            NodeCount::new("privileged", self.privileged, self.nodes),
            NodeCount::new("lending", self.lending, self.nodes)
        )
    }
}

/// What a check prints, without its newline: how bad it is, what was found, and the figures of the last
/// reading.
#[derive(Clone, Copy, Drop)]
pub struct CheckLine {
    /// What was found.
    pub finding: Finding,
    /// The figures.
    pub figures: Figures,
}

impl fmt::Display for CheckLine {
    ghost output = { λ line. Some (check_line line.finding line.figures) };

    fn fmt<W: fmt::Write>(&self, f: &mut fmt::Formatter<W>) -> fmt::Result {
        let word = self.finding.severity().word();
        let (finding, figures) = (self.finding, self.figures);
        write!(f, "tokentree {word} - {finding} |{figures}")
    }
}
