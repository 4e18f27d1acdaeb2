//! Copies of this program with limited memory: starts of threads that are refused, and a run
//! without any memory once its threads are started.
use super::full::{Full, TURNS, take_small};
use super::ran::{lend, net_of, ran, start, ticks};
use std::alloc::Global;
use std::env;
use std::path::Path;
use std::process::{Command, Processes};
use std::rt::Files;
use std::sync::Wait;
use std::test::Fail;
use std::thread::Threads;
use test_parts::as_expected;
use thread_net::{Open, RunFault, Woven};

/// The variable that makes a copy of this program run nodes: on a full heap if it says `full`.
const COPY: &str = "TOKENTREE_TEST_COPY";

/// The result of fifty turns of two nodes, in words. If a start is refused, a node that started
/// before it does all its turns, or none if it sees the refusal first.
fn in_words(ended: &Result<Woven, RunFault>) -> &'static str {
    match ended {
        Ok(woven) if ticks(&woven.events) == [50, 50, 0] => "both ran",
        Err(RunFault::Spawn(woven)) if matches!(ticks(&woven.events), [50 | 0, 0, 0]) => "refused",
        Err(RunFault::Memory(_world)) => "no memory",
        _ => "other turns",
    }
}

/// Runs fifty turns of two nodes, and says how that ended. If all memory is taken once the threads
/// are started, that counts only if there was no memory until the last turn was done.
fn ran_in_words<R: Threads + Wait + Sync>(
    rt: &R,
    alloc: Global,
    is_full: bool,
) -> Result<&'static str, Fail> {
    let world = start(alloc, &net_of(alloc, 2, 0, &[(0, 1)])?)?;
    if !is_full {
        return Ok(lend(ran(rt, alloc, world, TURNS, &Open), |ended| in_words(ended)));
    }
    let gate = Full::new(alloc, 2);
    take_small(alloc);
    let said = lend(ran(rt, alloc, world, TURNS, &gate), |ended| in_words(ended));
    Ok(if gate.held() && said == "both ran" {
        "both ran without memory"
    } else {
        "otherwise"
    })
}

/// In a copy of this program with limited memory, prints the result.
#[test]
fn in_a_copy(rt: HostRuntime) -> Result<(), Fail> {
    let Ok(how) = env::var(&rt, COPY) else {
        return Ok(());
    };
    let text = ran_in_words(&rt, rt.alloc(), how.as_str() == "full")?;
    println!(rt; "{text}")?;
    Ok(())
}

/// A script with which a shell becomes the program that is its first word, for that test, with as
/// many kilobytes of addresses as the second word says; a thread's stack takes 8,192 of them.
const LIMITED: &str = "ulimit -S -s 8192; ulimit -v $1; exec \"$0\" tests::copies::in_a_copy";

/// The words for that shell, and the variable that makes the copy run nodes.
fn add_words(command: &mut Command, program: Path, kilobytes: &str, how: &str) -> Result<(), Fail> {
    command.arg("-c")?.arg(LIMITED)?.arg(program)?;
    command.arg(kilobytes)?.env(COPY, how)?;
    Ok(())
}

/// Whether a copy of this program with this many kilobytes writes this first.
fn copy_says<R: Processes + AllocGlobal>(
    rt: &R,
    program: Path,
    (kilobytes, how, text): Row,
) -> Result<bool, Fail> {
    let mut command = Command::new(rt.alloc(), "sh")?;
    add_words(&mut command, program, kilobytes, how)?;
    let output = command.output(rt)?;
    Ok(output.stdout.as_slice().starts_with(text.as_bytes()))
}

/// How many kilobytes a copy has, what the variable says there, and what the copy says.
type Row = (&'static str, &'static str, &'static str);

/// Room for no stack, for one, for both, and for both with a full heap once the threads are
/// started.
const ROWS: [Row; 4] = [
    ("6000", "open", "refused\n"),
    ("12000", "open", "refused\n"),
    ("200000", "open", "both ran\n"),
    ("200000", "full", "both ran without memory\n"),
];

/// The place of the first row that is wrong.
fn first_unlike<R: Files + Processes + AllocGlobal>(rt: &R) -> Result<Option<usize>, Fail> {
    let program = env::current_exe(rt)?;
    for (at, row) in ROWS.iter().enumerate() {
        if !copy_says(rt, program.as_path(), *row)? {
            return Ok(Some(at));
        }
    }
    Ok(None)
}

/// A refused start still gives a run; and once its threads are started, a run asks for no memory.
#[test]
fn runs_with_little_memory_end(rt: HostRuntime) -> Result<(), Fail> {
    as_expected(first_unlike(&rt), &None)
}
