//! Numbers with three decimals.
ghost use Rattle.std.specs.Prelude.{Some};
ghost use Rattle.node_texts.specs.Thousandths.{thousandths_text};

use std::fmt;

/// This many thousandths, printed as a number with three decimals: milliseconds as seconds, say.
#[derive(Drop)]
pub struct Thousandths(pub u64);

impl fmt::Display for Thousandths {
    ghost output = { λ number. Some (thousandths_text number.0) };

    fn fmt<W: fmt::Write>(&self, f: &mut fmt::Formatter<W>) -> fmt::Result {
        write!(
            f,
            "{}.{}{}{}",
            self.0 / 1000,
            self.0 / 100 % 10,
            self.0 / 10 % 10,
            self.0 % 10
        )
    }
}
