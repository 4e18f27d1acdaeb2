//! What has settled of a world, as lines.
ghost use Rattle.std.specs.Prelude.{◌≡◌, ◌++◌, IfOk, OnOk, string_bytes};
ghost use Rattle.subcommands.specs.LayersText.{ShowsLayers, layers_text, yes_or_no};
ghost use Rattle.subcommands.specs.LayersText.{layer_line, links_line, stage_line};
ghost use Rattle.command_parts.specs.world.judge.configuration.ConfigurationView.{world_of};

use command_parts::World;
use experiments::Layers;
use std::alloc::{AllocError, Global};
use std::fmt::Write;

/// The lines of what has settled of a world.
pub fn layers_text(alloc: Global, world: &World) -> Result<String, AllocError>
    ensures { IfOk result (λ text. ShowsLayers (world_of world.now) (string_bytes text)) }
{
    text_of(alloc, Layers::of(world.configuration()))
}

/// The lines of these layers.
fn text_of(alloc: Global, layers: Layers) -> Result<String, AllocError>
    ensures { IfOk result (λ text. string_bytes text ≡ layers_text layers) }
{
    let mut text = String::new(alloc);
    push_links(&mut text, layers.stable, layers.links)?;
    push_stage(&mut text, layers.stage, layers.last_stage)?;
    push_layer(&mut text, "tree", layers.tree)?;
    push_layer(&mut text, "ring", layers.ring)?;
    push_layer(&mut text, "loans", layers.loans)?;
    push_layer(&mut text, "legitimate", layers.legitimate)?;
    Ok(text)
}

/// Adds how many of the links are stable.
fn push_links(text: &mut String, stable: usize, links: usize) -> Result<(), AllocError>
    ensures { OnOk result (string_bytes text.new
        ≡ string_bytes text.old ++ links_line stable links) }
{
    writeln!(text, "links {stable} of {links} stable")
}

/// Adds the stage at which the distances are, of the last one.
fn push_stage(text: &mut String, stage: u16, last: u16) -> Result<(), AllocError>
    ensures { OnOk result (string_bytes text.new
        ≡ string_bytes text.old ++ stage_line stage last) }
{
    writeln!(text, "distances right up to stage {stage} of {last}")
}

/// Adds whether a layer stands.
fn push_layer(text: &mut String, name: &str, stands: bool) -> Result<(), AllocError>
    ensures { OnOk result (string_bytes text.new
        ≡ string_bytes text.old ++ layer_line name.now stands) }
{
    writeln!(text, "{name} {}", yes_or_no(stands))
}

/// How a layer that stands or does not is written.
fn yes_or_no(stands: bool) -> &'static str
    ensures { result.now ≡ yes_or_no stands }
{
    if stands { "yes" } else { "no" }
}
