//! Signals that end a program by default and that its user sends to it, or to all programs of a
//! terminal.
ghost use Rattle.std.specs.Prelude.{◌≡◌, ◌<◌};
ghost use Rattle.held_signals.specs.Signals.{signal_number, in_mask, signals_of, no_signals, holds};
ghost use Rattle.held_signals.specs.Signals.{first_besides, including};
ghost use Rattle.held_signals.specs.Signals.{both_signals, signals_without, has_any, digit_value};

/// A signal by which a user or the system asks a program to end.
#[derive(Clone, Copy, PartialEq, Eq)]
pub enum Signal {
    /// SIGHUP: the terminal is closed.
    HangUp,
    /// SIGINT: Ctrl-C on the terminal.
    Interrupt,
    /// SIGQUIT: Ctrl-\ on the terminal.
    Quit,
    /// SIGTERM: the usual request to end.
    Terminate,
}

impl Signal {
    /// Its number, by POSIX.
    pub fn number(self) -> u8
        ensures { result ≡ signal_number self }
    {
        match self {
            Signal::HangUp => 1,
            Signal::Interrupt => 2,
            Signal::Quit => 3,
            Signal::Terminate => 15,
        }
    }
}

/// A set of these signals.
#[derive(Clone, Copy)]
pub struct Signals {
    /// Whether SIGHUP is one.
    pub hang_up: bool,
    /// Whether SIGINT is one.
    pub interrupt: bool,
    /// Whether SIGQUIT is one.
    pub quit: bool,
    /// Whether SIGTERM is one.
    pub terminate: bool,
}

impl Signals {
    /// No signal.
    pub fn none() -> Signals
        ensures { result ≡ no_signals }
    {
        Signals {
            hang_up: false,
            interrupt: false,
            quit: false,
            terminate: false,
        }
    }

    /// The signals of a mask, in the hexadecimal digits of `/proc/self/status`.
    pub fn of_mask(digits: &[u8]) -> Signals
        ensures { result ≡ signals_of digits.now }
    {
        Signals {
            hang_up: in_mask(digits, 0, 1),
            interrupt: in_mask(digits, 0, 2),
            quit: in_mask(digits, 0, 4),
            terminate: in_mask(digits, 3, 4),
        }
    }

    /// The signals of either set.
    pub fn with(self, others: Signals) -> Signals
        ensures { result ≡ both_signals self others }
    {
        Signals {
            hang_up: self.hang_up || others.hang_up,
            interrupt: self.interrupt || others.interrupt,
            quit: self.quit || others.quit,
            terminate: self.terminate || others.terminate,
        }
    }

    /// These signals without the others.
    pub fn without(self, others: Signals) -> Signals
        ensures { result ≡ signals_without others self }
    {
        Signals {
            hang_up: self.hang_up && !others.hang_up,
            interrupt: self.interrupt && !others.interrupt,
            quit: self.quit && !others.quit,
            terminate: self.terminate && !others.terminate,
        }
    }

    /// Whether there is any signal.
    pub fn any(self) -> bool
        ensures { result ≡ has_any self }
    {
        self.hang_up || self.interrupt || self.quit || self.terminate
    }

    /// One of these signals that was not seen.
    pub fn first_besides(self, seen: Signals) -> Option<Signal>
        ensures { result ≡ first_besides seen self }
    {
        if self.terminate && !seen.terminate {
            Some(Signal::Terminate)
        } else if self.interrupt && !seen.interrupt {
            Some(Signal::Interrupt)
        } else if self.quit && !seen.quit {
            Some(Signal::Quit)
        } else if self.hang_up && !seen.hang_up {
            Some(Signal::HangUp)
        } else {
            None
        }
    }

    /// These signals and this one.
    pub fn including(self, signal: Signal) -> Signals
        ensures { result ≡ including signal self }
    {
        match signal {
            Signal::HangUp => Signals {
                hang_up: true,
                ..self
            },
            Signal::Interrupt => Signals {
                interrupt: true,
                ..self
            },
            Signal::Quit => Signals { quit: true, ..self },
            Signal::Terminate => Signals {
                terminate: true,
                ..self
            },
        }
    }

    /// Whether this signal is one of them.
    pub fn holds(self, signal: Signal) -> bool
        ensures { result ≡ holds signal self }
    {
        match signal {
            Signal::HangUp => self.hang_up,
            Signal::Interrupt => self.interrupt,
            Signal::Quit => self.quit,
            Signal::Terminate => self.terminate,
        }
    }
}

/// Whether a mask has the bit of this weight in the digit that `following` digits follow.
fn in_mask(digits: &[u8], following: usize, weight: u8) -> bool
    requires { 0 < weight }
    ensures { result ≡ in_mask digits.now following weight }
{
    match digits.len().checked_sub(following) {
        None | Some(0) => false,
        Some(after) => digit_value(digits[after - 1]) / weight % 2 == 1,
    }
}

/// The value of a lower-case hexadecimal digit; 0 for anything else.
fn digit_value(digit: u8) -> u8
    ensures { result ≡ digit_value digit }
{
    match digit {
        b'0'..=b'9' => digit - b'0',
        b'a'..=b'f' => digit - b'a' + 10,
        _ => 0,
    }
}
