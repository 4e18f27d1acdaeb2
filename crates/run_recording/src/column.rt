//! What is seen of a network at a moment, or at several.
ghost use Rattle.std.specs.Prelude.{◌≡◌, ◌∷◌, ◌++◌};
ghost use Rattle.run_recording.specs.Marks.{worse_marks};
ghost use Rattle.run_recording.specs.Columns.{column_of, worse_column, is_even, with_last, ArisesFrom, Follows};

use crate::change::Change;
use crate::mark::Mark;
use crate::still::MOST_NODES;

/// What is seen of a network at a moment, or the worst of several moments.
#[derive(Clone, Copy)]
pub struct Column {
    /// The mark of each node, by its id; [`Mark::Settled`] if there is no such node.
    pub marks: [Mark; MOST_NODES],
    /// How many nodes are privileged: the most at any of the moments.
    pub privileged: usize,
    /// How many nodes lend: the most at any of the moments.
    pub lending: usize,
    /// How many sweeps end at these moments; the count stops at its greatest value.
    pub sweeps: u64,
    /// Whether damage was accepted at any of the moments.
    pub damaged: bool,
    /// Whether the sweeps since the last damage reached `Net::sharp_bound` at any of the moments.
    pub sharp: bool,
    /// Whether they reached `Net::bound`.
    pub bound: bool,
}

/// What is seen of a network at a moment, apart from the marks of its nodes.
#[derive(Clone, Copy)]
pub struct Counts {
    /// How many nodes are privileged.
    pub privileged: usize,
    /// How many nodes lend.
    pub lending: usize,
    /// How many sweeps end at the moment.
    pub sweeps: u64,
    /// Whether damage was accepted.
    pub damaged: bool,
    /// Whether the sweeps since the last damage reached `Net::sharp_bound`.
    pub sharp: bool,
    /// Whether they reached `Net::bound`.
    pub bound: bool,
}

impl Column {
    /// The worst of these moments and later ones: for each node the worse mark, the greater
    /// counts, all sweeps, and what happened at any of the moments.
    pub fn worse(&self, later: &Column) -> Column
        ensures { result ≡ worse_column self.now later.now }
    {
        Column {
            marks: worse_marks(&self.marks, &later.marks),
            privileged: self.privileged.max(later.privileged),
            lending: self.lending.max(later.lending),
            sweeps: self.sweeps.saturating_add(later.sweeps),
            damaged: self.damaged | later.damaged,
            sharp: self.sharp | later.sharp,
            bound: self.bound | later.bound,
        }
    }

    /// The column of one moment.
    pub fn of(marks: &[Mark; MOST_NODES], counts: &Counts) -> Column
        ensures { result ≡ column_of marks.now counts.now }
    {
        Column {
            marks: *marks,
            privileged: counts.privileged,
            lending: counts.lending,
            sweeps: counts.sweeps,
            damaged: counts.damaged,
            sharp: counts.sharp,
            bound: counts.bound,
        }
    }

    /// Makes this the worst of its moments and one moment more. Looks only at the marks that the
    /// change names, since the column is at least as bad as the moment before.
    fn worsen(&mut self, marks: &[Mark; MOST_NODES], change: Change, counts: &Counts)
        requires { ArisesFrom self.old.marks change marks.now }
        ensures { self.new ≡ worse_column self.old (column_of marks.now counts.now) }
    {
        worsen_marks(&mut self.marks, marks, change);
        self.privileged = self.privileged.max(counts.privileged);
        self.lending = self.lending.max(counts.lending);
        self.sweeps = self.sweeps.saturating_add(counts.sweeps);
        self.damaged |= counts.damaged;
        self.sharp |= counts.sharp;
        self.bound |= counts.bound;
    }
}

/// Makes each mark the worse of itself and the later one.
fn worsen_marks(worst: &mut [Mark; MOST_NODES], marks: &[Mark; MOST_NODES], change: Change)
    requires { ArisesFrom worst.old change marks.now }
    ensures { worst.new ≡ worse_marks worst.old marks.now }
{
    match change {
        Change::Nothing => {}
        Change::At { node } => worst[node] = worst[node].worse(marks[node]),
        Change::All => *worst = worse_marks(worst, marks),
    }
}

/// For each node the worse of its two marks.
fn worse_marks(marks: &[Mark; MOST_NODES], later: &[Mark; MOST_NODES]) -> [Mark; MOST_NODES]
    ensures { result ≡ worse_marks marks.now later.now }
{
    let mut worst = *marks;
    for v in 0..MOST_NODES {
        worst[v] = marks[v].worse(later[v]);
    }
    worst
}

/// Whether there is an even number of columns.
pub fn is_even(columns: &[Column]) -> bool
    ensures { result ≡ is_even columns.now }
{
    columns.len() % 2 == 0
}

/// Makes the last column, if there is one, show one moment more.
pub fn worsen_last(
    columns: &mut [Column],
    marks: &[Mark; MOST_NODES],
    change: Change,
    counts: &Counts,
)
    requires { Follows columns.old change marks.now }
    ensures { columns.new ≡ with_last columns.old (column_of marks.now counts.now) }
{
    if columns.is_empty() {
        return;
    }
    let place = columns.len() - 1;
    columns[place].worsen(marks, change, counts);
}
