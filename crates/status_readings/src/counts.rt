//! How many nodes of a reading answered, are privileged, or lend.
ghost use Rattle.std.specs.Prelude.{◌≡◌, length, filter};
ghost use Rattle.status_readings.specs.Report.{is_privileged, lends, has_answered};

use crate::answers::NodeAnswer;

/// How many nodes gave their status line.
pub fn answering(answers: &[NodeAnswer]) -> usize
    ensures { result ≡ length (filter has_answered answers.now) }
{
    answers.iter().copied().filter(has_answered).count()
}

/// How many nodes say that they are privileged.
pub fn privileged(answers: &[NodeAnswer]) -> usize
    ensures { result ≡ length (filter is_privileged answers.now) }
{
    answers.iter().copied().filter(is_privileged).count()
}

/// How many nodes say that they lend.
pub fn lending(answers: &[NodeAnswer]) -> usize
    ensures { result ≡ length (filter lends answers.now) }
{
    answers.iter().copied().filter(lends).count()
}

/// Whether a node gave its status line.
pub fn has_answered(answer: &NodeAnswer) -> bool
    ensures { result ≡ has_answered answer.now }
{
    answer.line.is_some()
}

/// Whether a node says that it is privileged.
fn is_privileged(answer: &NodeAnswer) -> bool
    ensures { result ≡ is_privileged answer.now }
{
    matches!(answer.line, Some(line) if line.token)
}

/// Whether a node says that it lends.
pub fn lends(answer: &NodeAnswer) -> bool
    ensures { result ≡ lends answer.now }
{
    matches!(answer.line, Some(line) if line.lent.is_some())
}
