//! The words of `draw`.
ghost use Rattle.std.specs.Prelude.{◌≡◌, IfOk, IfErr, codes};
ghost use Rattle.clap.specs.Matches.{found_of};
ghost use Rattle.command_line.specs.Wanted.{IsFilmOf, IsFilmRefused, IsWantedOf, IsWantedRefused};
ghost use Rattle.command_line.specs.Wanted.{IsWindowOf, IsWindowRefused};

use crate::film::Film;
use clap::ArgMatches;
use command_grammar::{FREE, Grammar, Number, Parameter, number_if_given, word};
use command_words::program::{EVENTS, FILE};
use command_words::refusal::Refusal;
use run_picture::command::{MOST_COLUMNS, Wanted};
use run_picture::{Window, command};
use std::io::Input;
use std::process::ExitCode;
use std::rt::Files;
use std::time::Clock;

/// What `draw` takes.
static DRAW: Grammar<'static> = Grammar {
    name: "draw",
    about: "Draws a picture of a run: which nodes were wrong or lent, and when",
    help: "\
The picture is SVG 1.1: a browser shows it without scripts, fonts or a network.
Time runs from left to right, in events. Each node has a lane, in the order in
which the tour of the tree first reaches it. A lane is pale while the node's
distance and parent are true, and grey while they are not. It is gold while the
node is privileged, and red while its desk lends. Above the lanes are damage,
sweeps, and the lines from which the guarantee holds: sharp bound and bound, as
bound --sharp shows them. Below are the numbers of privileged and of lending
nodes. On the right is the network, with thick lines for the edges of its tree.

The events text is that of simulate. If it has more events than there are
columns, a column stands for several events, as the legend says, and shows the
worst of them: lending over privileged over wrong. With --from and --to the
picture shows only the moments at which that many sweeps have ended since the
start. If lines were refused and the text has carriage returns, as at the end of
CRLF lines, a line on standard error says so.

With --layers four thin lanes stand below the picture. They show what has
settled, as simulate --layers says it: how large a share of the directed links
is stable; up to which stage the distances are right, and the whole height once
the tree is reached; whether the token ring is good; and whether every loan has
the privilege. If a column stands for several events, they show the state after
the last of them. The whole network is looked at once a column, so this takes
longer. If --to ends the picture within a column, that column shows nothing.

With --film it writes a picture that moves. It shows the network, with the root
at the top and each node as far below as its true distance. Each node shows the
distance that it has, and an arrow towards the parent that it has. A wrong node
is dashed, a privileged one has two circles, one that lends has a frame with its
ticket, and lightning shows where damage strikes. In networks of at most 12
nodes, a dot travels with the frame that was last sent or taken, and a dot rests
on its edge, in each direction, while other frames are under way.

A film plays in a browser, and on pages that show pictures. It holds its end for
three seconds, and begins again; a viewer that plays no films shows the end.
Moments that look alike share a still. If there are too many stills, a calm
stretch shows only its last moment. Moments with damage, or with two privileged
or two lending nodes, are joined only if nothing else is left, and then the film
says so. With --page the film stands in a page. A button, a slider and the keys
(space, the arrows, Home and End) play and pause it. The page says each still in
a sentence.

  $ tokentree draw examples/two-nodes.toml examples/forged-tokens.txt > run.svg
  $ tokentree draw examples/two-nodes.toml examples/forged-tokens.txt \\
      --film --seconds 30 > film.svg

Statuses: 0 done; 1 a file, memory or standard output failed, and a line on
standard error says which; 2 invalid arguments; 3 done, and some lines were
refused.",
    parameters: &[
        FILE,
        EVENTS,
        Parameter::Value("columns", "N", "The most columns, 1 to 1200"),
        Parameter::Value("from", "SWEEP", "Begin once this many sweeps have ended"),
        Parameter::Value("to", "SWEEP", "End once more sweeps than this have ended"),
        Parameter::Flag("layers", "Also show what has settled, in four thin lanes"),
        Parameter::Flag("film", "Write a film of the run: an SVG that plays"),
        Parameter::Flag("page", "Write the film in an HTML page with controls"),
        Parameter::Value("seconds", "N", "Seconds of film, 2 to 600 [default: 20]"),
    ],
    needs: &[("seconds", "film"), ("page", "film")],
    excludes: &[("film", "columns"), ("film", "layers")],
    ..FREE
};

/// What `draw` takes, for the parser.
pub fn grammar() -> &'static Grammar<'static>
    ensures { result.now.name.now ≡ codes "draw" }
{
    &DRAW
}

/// How many columns a picture may have.
const COLUMNS: Number<'static> = Number {
    id: "columns",
    name: "--columns",
    least: 1,
    most: 1200,
};

/// How many seconds a film may play.
const SECONDS: Number<'static> = Number {
    id: "seconds",
    name: "--seconds",
    least: 2,
    most: 600,
};

/// Where a picture may begin, in sweeps.
const FROM: Number<'static> = Number {
    id: "from",
    name: "--from",
    least: 0,
    most: u64::MAX,
};

/// Where a picture may end, in sweeps.
const TO: Number<'static> = Number {
    id: "to",
    name: "--to",
    least: 0,
    most: u64::MAX,
};

/// Does what the words of `draw` say.
pub fn run<R: Files + Input + Clock + Print + Eprint + AllocGlobal>(
    rt: &R,
    given: &ArgMatches,
    on_terminal: bool,
) -> Result<ExitCode, Refusal> {
    let network = word(given, "FILE")?;
    let events = word(given, "EVENTS")?;
    if given.get_flag("film") {
        let film = Film(wanted_film(given)?);
        return Ok(command::run(rt, network, events, film, on_terminal)?);
    }
    let wanted = wanted(given)?;
    Ok(command::run(rt, network, events, wanted, on_terminal)?)
}

/// The film that the words of `draw` ask for.
///
/// # Errors
/// If a word spells no number in its range, or the window ends before it begins.
fn wanted_film(given: &ArgMatches) -> Result<run_film::WantedFilm, Refusal>
    ensures ok { IfOk result (IsFilmOf (found_of given.now)) }
    ensures err { IfErr result (IsFilmRefused (found_of given.now)) }
{
    Ok(run_film::WantedFilm {
        window: window(given)?,
        seconds: number_if_given(given, SECONDS)?.unwrap_or(20) as u16,
        page: given.get_flag("page"),
    })
}

/// The picture that the words of `draw` ask for.
///
/// # Errors
/// If a word spells no number in its range, or the window ends before it begins.
fn wanted(given: &ArgMatches) -> Result<Wanted, Refusal>
    ensures ok { IfOk result (IsWantedOf (found_of given.now)) }
    ensures err { IfErr result (IsWantedRefused (found_of given.now)) }
{
    Ok(Wanted {
        window: window(given)?,
        columns: number_if_given(given, COLUMNS)?.unwrap_or(u64::from(MOST_COLUMNS)) as u16,
        layers: given.get_flag("layers"),
    })
}

/// The window that the words of `draw` ask for.
///
/// # Errors
/// If a word spells no number, or the window ends before it begins.
fn window(given: &ArgMatches) -> Result<Window, Refusal>
    ensures ok { IfOk result (IsWindowOf (found_of given.now)) }
    ensures err { IfErr result (IsWindowRefused (found_of given.now)) }
{
    let window = Window {
        from: number_if_given(given, FROM)?.unwrap_or(Window::ALL.from),
        to: number_if_given(given, TO)?.unwrap_or(Window::ALL.to),
    };
    if window.to < window.from {
        return Err(Refusal::Window);
    }
    Ok(window)
}
