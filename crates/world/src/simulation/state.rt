//! The text that shows a world.
ghost use Rattle.std.specs.Prelude.{◌≡◌, ◌+◌, ◌<◌, ◌≤◌, ◌++◌, codes, decimal, length};
ghost use Rattle.arrayvec.specs.ArrayString.{array_string_len};
ghost use Rattle.world.specs.StateText.{node_lines, link_line, links_from, link_lines, counts_line};
ghost use Rattle.world.specs.StateText.{sweeps_line, state_text};
ghost use Rattle.byte_streams.specs.Streams.{WritesAll};
ghost use Rattle.judge.specs.configuration.ConfigurationView.{world_of};

use super::line::{Line, push_number};
use byte_streams::{Failed, Sink, write_all};
use judge::Configuration;
use std::alloc::Allocator;

/// The most bytes of a node's status line, with its newline.
const STATUS_BYTES: usize = 96;

/// Writes the text that shows a world with this count of sweeps.
pub fn write_state<A: Allocator + Copy, W: Sink>(
    configuration: &Configuration<A>,
    sweeps: u64,
    sink: &mut W,
) -> Result<(), Failed>
    ensures { WritesAll result (state_text (world_of configuration.now) sweeps) (W.taken sink.old)
        (W.taken sink.new) (W.failures sink.old) (W.failures sink.new) }
{
    write_nodes(configuration, sink)?;
    write_links(configuration, sink)?;
    write_counts(configuration, sink)?;
    write_sweeps(configuration, sweeps, sink)
}

/// Writes the nodes' status lines.
fn write_nodes<A: Allocator + Copy, W: Sink>(
    configuration: &Configuration<A>,
    sink: &mut W,
) -> Result<(), Failed>
    ensures { WritesAll result (node_lines (world_of configuration.now)) (W.taken sink.old)
        (W.taken sink.new) (W.failures sink.old) (W.failures sink.new) }
{
    for v in 0..configuration.net().nodes() {
        let mut line = [0; STATUS_BYTES];
        let len = configuration.node(v).status(&mut line);
        write_all(sink, &line[..len])?;
    }
    Ok(())
}

/// Writes the lines of all links.
fn write_links<A: Allocator + Copy, W: Sink>(
    configuration: &Configuration<A>,
    sink: &mut W,
) -> Result<(), Failed>
    ensures { WritesAll result (link_lines (world_of configuration.now)) (W.taken sink.old)
        (W.taken sink.new) (W.failures sink.old) (W.failures sink.new) }
{
    for from in 0..configuration.net().nodes() {
        write_links_from(configuration, from, sink)?;
    }
    Ok(())
}

/// Writes the lines of the links that lead from a node.
fn write_links_from<A: Allocator + Copy, W: Sink>(
    configuration: &Configuration<A>,
    from: u16,
    sink: &mut W,
) -> Result<(), Failed>
    requires { from < (world_of configuration.now).net.nodes }
    ensures { WritesAll result (links_from (world_of configuration.now) from) (W.taken sink.old)
        (W.taken sink.new) (W.failures sink.old) (W.failures sink.new) }
{
    topology::laws::neighbours();
    for to in configuration.net().neighbours(from) {
        write_link(configuration, from, *to, sink)?;
    }
    Ok(())
}

/// Writes the line of a link.
fn write_link<A: Allocator + Copy, W: Sink>(
    configuration: &Configuration<A>,
    from: u16,
    to: u16,
    sink: &mut W,
) -> Result<(), Failed>
    requires from_in { from < (world_of configuration.now).net.nodes }
    requires to_in { to < (world_of configuration.now).net.nodes }
    ensures { WritesAll result (link_line (world_of configuration.now) from to) (W.taken sink.old)
        (W.taken sink.new) (W.failures sink.old) (W.failures sink.new) }
{
    let mut line = Line::new();
    push_number(&mut line, "link ", u64::from(from));
    push_number(&mut line, " ", u64::from(to));
    push_number(
        &mut line,
        " items ",
        configuration.under_way(from, to) as u64,
    );
    line.push_str("\n");
    write_all(sink, line.as_bytes())
}

/// Writes how many nodes are privileged and how many lend.
fn write_counts<A: Allocator + Copy, W: Sink>(
    configuration: &Configuration<A>,
    sink: &mut W,
) -> Result<(), Failed>
    ensures { WritesAll result (counts_line (world_of configuration.now)) (W.taken sink.old)
        (W.taken sink.new) (W.failures sink.old) (W.failures sink.new) }
{
    let mut line = Line::new();
    push_number(&mut line, "privileged ", configuration.privileged() as u64);
    push_number(&mut line, " lending ", configuration.lending() as u64);
    line.push_str("\n");
    write_all(sink, line.as_bytes())
}

/// Writes the line of the sweeps.
fn write_sweeps<A: Allocator + Copy, W: Sink>(
    configuration: &Configuration<A>,
    sweeps: u64,
    sink: &mut W,
) -> Result<(), Failed>
    ensures { WritesAll result (sweeps_line (world_of configuration.now) sweeps) (W.taken sink.old)
        (W.taken sink.new) (W.failures sink.old) (W.failures sink.new) }
{
    let mut line = Line::new();
    push_number(&mut line, "sweeps ", sweeps);
    push_number(&mut line, " of ", u64::from(configuration.net().bound()));
    line.push_str("\n");
    write_all(sink, line.as_bytes())
}
