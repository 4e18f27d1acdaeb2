//! What a node's process says once it has started.
ghost use Rattle.std.specs.Prelude.{◌≡◌};
ghost use Rattle.process_parts.specs.declared.start.StartStage.TheVariants.{Listening, Ready};

use crate::note::{Note, NoteLine};
use node_state_file::StartFault;
use process_parts::{NodeWords, StartStage};
use std::rt::Env;
use unix_doors::tell_ready;

/// Says with which state the node starts, and that it is ready: its sockets listen. A service manager
/// that started it is notified of that.
pub fn say_ready<R: Env + Print + AllocGlobal>(
    rt: &R,
    words: &NodeWords<'_>,
    fault: Option<StartFault>,
    stage: &mut StartStage,
)
    requires { stage.old ≡ Listening }
    ensures { stage.new ≡ Ready }
{
    say(rt, words, Note::Started(fault));
    say(rt, words, Note::Ready);
    if !words.is_child {
        tell_ready(rt);
    }
    *stage = StartStage::Ready;
}

/// Prints a note as one line, in one write. A node whose output is closed runs on.
fn say<R: Print + AllocGlobal>(rt: &R, words: &NodeWords<'_>, note: Note) {
    let named = words.is_child.then_some(words.id);
    let line = NoteLine { named, note };
    if let Ok(text) = format!(in rt.alloc(); "{line}\n") {
        let _ = rt.print(text.as_str());
    }
}
