//! A time in seconds.
ghost use Rattle.std.specs.Prelude.{Some};
ghost use Rattle.lock_command.specs.Seconds.{decimals_text, seconds_text};

use std::fmt;

/// A time. Printed, it is in seconds, with up to three decimals.
#[derive(Clone, Copy, Drop)]
pub struct Seconds {
    /// How many milliseconds it is.
    pub millis: u32,
}

/// Thousandths, printed as the decimals of a number of seconds.
#[derive(Clone, Copy, Drop)]
struct Decimals(u32);

impl fmt::Display for Decimals {
    ghost output = { λ decimals. Some (decimals_text decimals.0) };

    fn fmt<W: fmt::Write>(&self, f: &mut fmt::Formatter<W>) -> fmt::Result {
        let rest = self.0;
        let (tenths, hundredths) = (rest / 100, rest / 10 % 10);
        if rest == 0 {
            Ok(())
        } else if rest % 100 == 0 {
            write!(f, ".{tenths}")
        } else if rest % 10 == 0 {
            write!(f, ".{tenths}{hundredths}")
        } else {
            write!(f, ".{tenths}{hundredths}{}", rest % 10)
        }
    }
}

impl fmt::Display for Seconds {
    ghost output = { λ seconds. Some (seconds_text seconds.millis) };

    fn fmt<W: fmt::Write>(&self, f: &mut fmt::Formatter<W>) -> fmt::Result {
        write!(
            f,
            "{}{}",
            self.millis / 1_000,
            Decimals(self.millis % 1_000)
        )
    }
}
