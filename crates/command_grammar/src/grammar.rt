//! What a command takes, as a table.
ghost use Rattle.std.specs.Prelude.{◌≡◌};
ghost use Rattle.command_grammar.specs.Parsers.{help_for, is_hidden};

/// A parameter of a command. Each names its id first, and its help, if it has one, last; an option
/// or a flag is given as `--` and its id.
#[derive(Clone, Copy)]
pub enum Parameter<'a> {
    /// A word in its place, which must be given.
    Place(&'a str, &'a str),
    /// Any number of words, after all others.
    Places(&'a str, &'a str),
    /// All words that follow, flags too.
    Rest(&'a str, &'a str),
    /// An option with a value, which has the second name in the help.
    Value(&'a str, &'a str, &'a str),
    /// The same, with a default value as the third text.
    ValueOr(&'a str, &'a str, &'a str, &'a str),
    /// A flag.
    Flag(&'a str, &'a str),
    /// A flag that the help does not show.
    HiddenFlag(&'a str),
}

impl<'a> Parameter<'a> {
    /// What the help says about it; an empty text if the help leaves it out.
    pub fn help(&self) -> &'a str
        ensures { result.now ≡ help_for self.now }
    {
        match *self {
            Parameter::Place(_, help)
            | Parameter::Places(_, help)
            | Parameter::Rest(_, help)
            | Parameter::Flag(_, help)
            | Parameter::Value(_, _, help)
            | Parameter::ValueOr(_, _, _, help) => help,
            Parameter::HiddenFlag(_) => "",
        }
    }

    /// Whether the help leaves it out.
    pub fn is_hidden(&self) -> bool
        ensures { result ≡ is_hidden self.now }
    {
        matches!(self, Parameter::HiddenFlag(_))
    }
}

/// Parameters of which exactly one must be given.
#[derive(Clone, Copy)]
pub struct Choice<'a> {
    /// The name of the choice, which no parameter has.
    pub name: &'a str,
    /// The ids of its parameters.
    pub of: &'a [&'a str],
}

/// A command.
#[derive(Clone, Copy)]
pub struct Grammar<'a> {
    /// The word by which it is called.
    pub name: &'a str,
    /// What it does, in a line.
    pub about: &'a str,
    /// What follows the options in its help.
    pub help: &'a str,
    /// Parameters that it shares with other commands; the help shows these options first.
    pub shared: &'a [Parameter<'a>],
    /// What it takes besides them. Places are taken in this order, and the help shows options in it.
    pub parameters: &'a [Parameter<'a>],
    /// Pairs of ids: the first is invalid unless the second is given.
    pub needs: &'a [(&'a str, &'a str)],
    /// Pairs of ids: the first is invalid if the second is given.
    pub excludes: &'a [(&'a str, &'a str)],
    /// The choice that must be made, if there is one.
    pub choice: Option<Choice<'a>>,
}

/// A command without a name that takes nothing. A table takes from it what it leaves out, such as the
/// rules of parameters that may be given with any others.
pub const FREE: Grammar<'static> = Grammar {
    name: "",
    about: "",
    help: "",
    shared: &[],
    parameters: &[],
    needs: &[],
    excludes: &[],
    choice: None,
};

/// A program of several commands, of which a command line must name one.
#[derive(Clone, Copy)]
pub struct Program<'a> {
    /// Its name.
    pub name: &'a str,
    /// What it does, in a line.
    pub about: &'a str,
    /// What follows the commands in its help.
    pub help: &'a str,
    /// Its version, as `--version` shows it.
    pub version: &'a str,
}
