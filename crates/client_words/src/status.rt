//! The words of `status`.
ghost use Rattle.std.specs.Prelude.{◌≡◌, IfOk, IfErr, codes};
ghost use Rattle.clap.specs.Matches.{found_of};
ghost use Rattle.client_words.specs.StatusWords.{AreIds, AreIdsRefused, IsAskedFor, IsFormOf};
ghost use Rattle.client_words.specs.Interval.{interval};

use clap::ArgMatches;
use command_faults::Fault;
use command_grammar::{FREE, Grammar, Parameter, WordFault, word};
use command_words::program::{DIR, ID, Runtime};
use command_words::refusal::Refusal;
use recovery_times::micros_of;
use status_command::{
    AnswerForm, LinePart, StatusNotice, Watch, check, looks, refused, status, watch,
};
use std::alloc::Global;
use std::process::ExitCode;

/// What `status` takes.
static STATUS: Grammar<'static> = Grammar {
    name: "status",
    about: "Shows how nodes stand, and how many are privileged and lend",
    help: "\
Asks each node for its status line, for at most a second:

  $ tokentree status /run/tokentree
  node 0 distance 0 parent none token yes lent 3 waiting 1
  node 1 distance 1 parent 0 token no lent none waiting 0
  node 2 no answer
  privileged 1 lending 1

distance and parent are the node's place in the tree to the root; token is yes
if it is privileged, so that it may lend the lock; lent is the ticket that it
lends to; waiting is how many wait at it. The last line counts the nodes with
token yes, and those that lend.

The nodes answer one after the other while the token goes round, so it may be
seen at two of them, or at none. Two nodes lend at once only after damage, until
the lock has recovered. A node that is cut off shows its old place; --links
shows that it is cut off. If a node gives no answer, and DIR has neither its
socket nor its state, a line on standard error says that it never ran there.

  $ tokentree status /run/tokentree --links
  node 0 link 1 up for 86.001 s breaks 0
  node 1 link 0 up for 86.001 s breaks 0
  node 2 no answer
  $ tokentree status /run/tokentree --premises
  node 0 turns 51200 longest 3.104 ms lately 2.290 ms late 3

--links shows for each neighbour whether it is connected, since when, and how
often a connection broke. --premises shows the longest time between two turns of
a node, since its start and within the last minute, and how many turns came
later than the node's --turn allows. Both come from DIR/look-ID.sock.

--json shows the same as one JSON object: nodes, privileged, lending. Each node
has the words of its line as names, null for none, and answer, which is false if
it gave none.

--watch shows the nodes every half second, or every --every seconds. Each node
is under its parent, with the time that its loan has taken so far. Below are the
loans of the last minute, whose longest may have ended up to half a minute
earlier, and how often the token came round. On a terminal the picture stays in
place, and Ctrl-C or q ends it. Elsewhere each reading is a block, with an empty
line between two. With --json it is a line.

  $ tokentree status /run/tokentree --check ring.toml
  tokentree OK - each node is in its place, and at most one lends | nodes=3;; ..

--check looks three times, a second apart, at each node of the network of FILE.
Statuses and words are those of monitoring plugins: 0 OK, if each time each node
answers, with the distance and parent that the network gives, and at most one
lends; 1 WARNING, if one does not, or two lend in some reading; 2 CRITICAL, if
nobody answers, or two lend each time; 3 UNKNOWN, if it cannot look, or DIR has
a node that is not in the network. A reading takes some time, so two nodes that
lend in it may have lent one after the other. In three readings in a row that is
unlikely, but still no proof of two locks. OK does not say that nothing happened
between the readings. The figures are those of the last.

Statuses: 0 each node answered; 1 one gave no answer, or there is none; 2
invalid arguments; with --check those above; 0 for a watch that a key ended.",
    parameters: &[
        Parameter::Flag("json", "Print one JSON object, on one line"),
        Parameter::Value(
            "check",
            "FILE",
            "Say for a monitor whether the network of FILE serves",
        ),
        Parameter::Flag(
            "premises",
            "Show the longest times between two turns of each node",
        ),
        Parameter::Flag("links", "Show how the links of each node stand"),
        Parameter::Flag("watch", "Show the nodes again and again, until Ctrl-C"),
        Parameter::Value(
            "every",
            "SECONDS",
            "The time between two looks, 0.1 to 3600 [default: 0.5]",
        ),
        DIR,
        IDS,
    ],
    needs: &[("every", "watch")],
    excludes: &[
        ("check", "json"),
        ("check", "watch"),
        ("check", "premises"),
        ("check", "links"),
        ("check", "ID"),
        ("premises", "json"),
        ("premises", "watch"),
        ("premises", "links"),
        ("links", "json"),
        ("links", "watch"),
    ],
    ..FREE
};

/// What `status` takes, for the parser.
pub fn grammar() -> &'static Grammar<'static>
    ensures { result.now.name.now ≡ codes "status" }
{
    &STATUS
}

/// The ids of nodes, in the commands that ask several nodes.
pub const IDS: Parameter<'static> = Parameter::Places(
    "ID",
    "The nodes, by their ids; none for each with a socket in DIR",
);

/// Does what the words of `status` say.
pub fn run<R: Runtime>(rt: &R, given: &ArgMatches) -> Result<ExitCode, Refusal> {
    let nodes = ids(rt.alloc(), given.get_strs("ID").unwrap_or(&[]))?;
    let folder = word(given, "DIR")?;
    Ok(ExitCode::from(show(rt, asked(given), folder, nodes.as_slice())))
}

/// What `status` shows.
#[derive(Clone, Copy)]
enum ShownStatus<'a> {
    /// Whether each node is in its place in the network of this file, for a monitor.
    Check(&'a str),
    /// What nodes say of their turns, or of their links.
    Part(LinePart),
    /// The nodes repeatedly, after this many milliseconds each time; none if the word spells no
    /// such time.
    Watch(Option<u64>, AnswerForm),
    /// The nodes once.
    Once(AnswerForm),
}

/// Shows what the flags ask for, and returns the exit status.
fn show<R: Runtime>(rt: &R, shown: ShownStatus<'_>, folder: &str, nodes: &[u16]) -> u8 {
    match shown {
        ShownStatus::Check(file) => check::run(rt, folder, file),
        ShownStatus::Part(part) => looks::run(rt, folder, nodes, part),
        ShownStatus::Watch(None, _) => refused(rt, StatusNotice::NoInterval),
        ShownStatus::Watch(Some(every), form) => {
            let watch = Watch {
                folder,
                nodes,
                every,
                form,
            };
            watch::run(rt, &watch)
        }
        ShownStatus::Once(form) => status::run(rt, folder, nodes, form),
    }
}

/// What the flags ask for.
fn asked<'a>(given: &ArgMatches<'a>) -> ShownStatus<'a>
    ensures { IsAskedFor (found_of given.now) result }
{
    if let Some(file) = given.get_str("check") {
        ShownStatus::Check(file)
    } else if given.get_flag("premises") {
        ShownStatus::Part(LinePart::Premises)
    } else if given.get_flag("links") {
        ShownStatus::Part(LinePart::Links)
    } else if given.get_flag("watch") {
        ShownStatus::Watch(interval(given.get_str("every")), form(given))
    } else {
        ShownStatus::Once(form(given))
    }
}

/// The form in which the nodes are shown.
fn form(given: &ArgMatches) -> AnswerForm
    ensures { IsFormOf (found_of given.now) result }
{
    if given.get_flag("json") {
        AnswerForm::Json
    } else {
        AnswerForm::Lines
    }
}

/// The time between two looks of a watch, in milliseconds: half a second by default; none if the
/// word spells no time from a tenth of a second to an hour, with at most three decimals.
fn interval(word: Option<&str>) -> Option<u64>
    ensures { result ≡ interval word.entry }
{
    match word {
        None => Some(500),
        Some(word) => match micros_of(word.as_bytes()) {
            Some(millis) if millis >= 100 && millis <= 3_600_000 => Some(u64::from(millis)),
            _ => None,
        },
    }
}

/// The ids that these words spell.
///
/// # Errors
/// If a word spells no number from 0 to 65535, or memory runs out.
pub fn ids(alloc: Global, words: &[&str]) -> Result<Vec<u16>, Refusal>
    ensures ok { IfOk result (λ nodes. AreIds words.now nodes.items) }
    ensures err { IfErr result (AreIdsRefused words.now) }
{
    let mut nodes = Vec::new(alloc);
    for word in words {
        let Some(id) = ID.read(word) else {
            return Err(Refusal::Word(WordFault::NoNumber(ID)));
        };
        nodes.push(id as u16).map_err(|_| Fault::Memory)?;
    }
    Ok(nodes)
}
