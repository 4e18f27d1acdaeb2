//! `status --check`: whether a network serves as it should, for monitors.
ghost use Rattle.std.specs.Prelude.{◌≡◌, ◌≤◌, IfOk};
ghost use Rattle.std.specs.List.{range_with_len};
ghost use Rattle.status_readings.specs.CheckText.{figures};
ghost use Rattle.status_readings.specs.Verdict.{finding};

use crate::folder::{first_beyond, why_no_nodes};
use crate::notice::{StatusNotice, UnknownLine};
use crate::status::{WAIT, answers_of, why_not_asked};
use desk_sockets::nodes_in;
use network_file::read_network;
use status_readings::{CheckLine, Figures, NodeAnswer, Severity, verdict};
use std::alloc::{AllocError, Global};
use std::rt::Files;
use std::thread;
use std::time::{Clock, Duration};
use topology::Net;

/// How many seconds pass between two readings.
const BETWEEN_READINGS: u64 = 1;

/// Reads three times, a second apart, what each node of a file's network answers in a folder, and
/// prints a line with the verdict. Returns the exit status: 0 to 3, as monitoring plugins do.
///
/// [`verdict`] says what is found, and [`Finding::severity`](status_readings::Finding::severity)
/// how bad it is.
pub fn run<R: std::net::Net + Files + Clock + Print + AllocGlobal>(
    rt: &R,
    folder: &str,
    file: &str,
) -> u8
    ensures { result ≤ 3 }
{
    match checked(rt, folder, file) {
        Ok(line) => {
            let _ = rt.println(line);
            line.finding.severity().status()
        }
        Err(notice) => {
            let _ = rt.println(UnknownLine(notice));
            Severity::Unknown.status()
        }
    }
}

/// What the check finds.
///
/// # Errors
/// Why the nodes cannot be read.
fn checked<'a, R: std::net::Net + Files + Clock + AllocGlobal>(
    rt: &R,
    folder: &'a str,
    file: &'a str,
) -> Result<CheckLine, StatusNotice<'a>> {
    let net = match read_network(rt, file) {
        Ok(net) => net,
        Err(fault) => return Err(StatusNotice::NoNetwork { file, fault }),
    };
    see_folder(rt, folder, file, &net)?;
    match nodes_of(rt.alloc(), &net) {
        Ok(nodes) => judged(rt, folder, &net, nodes.as_slice()),
        Err(_) => Err(StatusNotice::Memory),
    }
}

/// Checks that the folder can be read, and has no node that is not in the network.
fn see_folder<'a, R: Files + AllocGlobal>(
    rt: &R,
    folder: &'a str,
    file: &'a str,
    net: &Net,
) -> Result<(), StatusNotice<'a>> {
    match nodes_in(rt, folder) {
        Ok(found) => match first_beyond(found.as_slice(), net.nodes()) {
            Some(node) => Err(StatusNotice::OtherNetwork { file, folder, node }),
            None => Ok(()),
        },
        Err(error) => Err(why_no_nodes(error.kind(), folder)),
    }
}

/// The nodes of a network, by ascending id.
fn nodes_of(alloc: Global, net: &Net) -> Result<Vec<u16>, AllocError>
    ensures { IfOk result (λ nodes. nodes.items ≡ range_with_len 0 net.now.nodes) }
{
    let mut nodes = Vec::new(alloc);
    for node in 0..net.nodes() {
        nodes.push(node)?;
    }
    Ok(nodes)
}

/// What three readings say.
fn judged<'a, R: std::net::Net + Clock + AllocGlobal>(
    rt: &R,
    folder: &'a str,
    net: &Net,
    nodes: &[u16],
) -> Result<CheckLine, StatusNotice<'a>> {
    let first = reading(rt, folder, nodes)?;
    thread::sleep(rt, Duration::from_secs(BETWEEN_READINGS));
    let second = reading(rt, folder, nodes)?;
    thread::sleep(rt, Duration::from_secs(BETWEEN_READINGS));
    let third = reading(rt, folder, nodes)?;
    Ok(line_of(net, first.as_slice(), second.as_slice(), third.as_slice()))
}

/// The line of three readings, with the figures of the last.
fn line_of(
    net: &Net,
    first: &[NodeAnswer],
    second: &[NodeAnswer],
    third: &[NodeAnswer],
) -> CheckLine
    ensures finding { result.finding ≡ finding net.now first.now second.now third.now }
    ensures figures { result.figures ≡ figures net.now third.now }
{
    CheckLine {
        finding: verdict(net, first, second, third),
        figures: Figures::of(net, third),
    }
}

/// What the nodes answer.
fn reading<'a, R: std::net::Net + Clock + AllocGlobal>(
    rt: &R,
    folder: &'a str,
    nodes: &[u16],
) -> Result<Vec<NodeAnswer>, StatusNotice<'a>> {
    match answers_of(rt, rt.alloc(), folder, nodes, WAIT) {
        Ok(answers) => Ok(answers),
        Err(error) => Err(why_not_asked(error.kind())),
    }
}
