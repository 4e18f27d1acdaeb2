//! `junk SEED LINES`: lines without meaning.
ghost use Rattle.std.specs.Prelude.{◌≡◌, ◌+◌, ◌≤◌, ◌⊎◌, IfErr, OnOk, [], ◌++◌, codes, length, take};
ghost use Rattle.byte_streams.specs.Streams.{Rose, Takes};
ghost use Rattle.command_parts.specs.schedules.damage_tool.Draws.{draw_junk};
ghost use Rattle.subcommands.specs.Damaged.{junk_text, seeded};
ghost use Rattle.command_parts.specs.command_faults.Output.{IsUntaken};
ghost use Rattle.command_parts.specs.command_faults.Ends.{DoneMeansZero};
ghost use Rattle.command_parts.specs.command_faults.declared.fault.Fault.TheVariants.{Memory, Output};

use byte_streams::{Failed, Sink, write_all};
use command_parts::{Fault, Flush, WriteSink, junk_line};
use rand_core::SeedableRng;
use rand_pcg::Lcg64Xsh32;
use std::io::{BufWriter, writer};
use std::process::ExitCode;

/// Prints this many lines of junk, drawn from the generator of this seed.
///
/// # Errors
/// If memory runs out, or standard output fails.
pub fn run<R: Print + Eprint + AllocGlobal>(
    rt: &R,
    seed: u32,
    lines: u32,
) -> Result<ExitCode, Fault>
    ensures ok { DoneMeansZero result }
    ensures err { IfErr result (λ fault. (fault ≡ Memory) ⊎ IsUntaken fault) }
{
    let Ok(output) = BufWriter::new(rt.alloc(), writer(rt)) else {
        return Err(Fault::Memory);
    };
    let mut sink = WriteSink::new(output);
    match write_junk(seed, lines, &mut sink) {
        Ok(()) => Ok(ExitCode::SUCCESS),
        Err(fault) => Err(sink.fault(rt, fault)),
    }
}

/// Writes this many lines of junk, all of them.
///
/// What is unproved: that the text reaches standard output, which does not show its bytes.
///
/// # Errors
/// If the sink fails.
pub fn write_junk<W: Flush>(seed: u32, lines: u32, sink: &mut W) -> Result<(), Fault>
    ensures text { OnOk result
        (Takes (junk_text lines (seeded seed)) (W.taken sink.old) (W.taken sink.new)) }
    ensures written { OnOk result (W.unwritten sink.new ≡ []) }
    ensures err { IfErr result
        (λ fault. (fault ≡ Output) × Rose (W.failures sink.old) (W.failures sink.new)) }
{
    let mut generator = Lcg64Xsh32::seed_from_u64(u64::from(seed));
    for _line in 0..lines {
        write_line(&mut generator, sink).map_err(|_| Fault::Output)?;
    }
    sink.flush().map_err(|_| Fault::Output)
}

/// Writes a line of junk with its newline.
fn write_line<W: Sink>(generator: &mut Lcg64Xsh32, sink: &mut W) -> Result<(), Failed>
    ensures text { OnOk result (Takes ((draw_junk generator.old).0 ++ codes "\n") (W.taken sink.old)
        (W.taken sink.new)) }
    ensures generator { generator.new ≡ (draw_junk generator.old).1 }
    ensures cause { IfErr result (λ _. Rose (W.failures sink.old) (W.failures sink.new)) }
    ensures grows { W.failures sink.old ≤ W.failures sink.new }
{
    let mut line = [0; 41];
    let count = junk_line(generator, &mut line);
    line[count] = b'\n';
    write_all(sink, &line[..count + 1])
}
