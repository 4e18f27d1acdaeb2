//! Which moments of a run are shown.
ghost use Rattle.std.specs.Prelude.{◌≡◌};
ghost use Rattle.run_recording.specs.Held.{is_held};

/// The moments to show, by how many sweeps have ended since the start, including one that ends at
/// the moment itself. Damage does not restart this count.
#[derive(Clone, Copy)]
pub struct Window {
    /// The least number.
    pub from: u64,
    /// The greatest number.
    pub to: u64,
}

impl Window {
    /// All moments.
    pub const ALL: Window = Window {
        from: 0,
        to: u64::MAX,
    };

    /// Whether a moment at which this many sweeps have ended is shown.
    pub fn holds(self, ended: u64) -> bool
        ensures { result ≡ is_held self ended }
    {
        !(ended < self.from) & !(self.to < ended)
    }
}
