//! The player of a script's lines, one by one.

ghost use Rattle.std.specs.Prelude.{◌≡◌, [], IfOk};
ghost use Rattle.trdp_engine.specs.NodeStates.{uncounted};
ghost use Rattle.trdp_model.specs.NodeModels.{opened_model};
ghost use Rattle.trdp_text.specs.Lines.{line_of};
ghost use Rattle.trdp_script.specs.ScriptSteps.{LineComesTo};

use crate::fault::ScriptFault;
use crate::output::{flush_full, output_buffer};
use crate::play::play;
use std::alloc::{AllocError, Global};
use std::io::Write;
use trdp_dataset::NodeConfig;
use trdp_engine::{Node, Outbox};
use trdp_text::{LineFault, read_event};

/// The node of a script, with the lists that are used again from event to event.
#[derive(Drop)]
pub(crate) struct Player {
    /// The node.
    pub(crate) node: Node,
    /// The bytes that a line carries.
    bytes: Vec<u8>,
    /// The records of one event.
    records: Outbox,
    /// The text that is to be written.
    pub(crate) output: Vec<u8>,
}

impl Player {
    /// A node of the configuration that was just opened.
    pub(crate) fn new(alloc: Global, config: NodeConfig) -> Result<Player, AllocError>
        ensures node { IfOk result (λ player. uncounted player.node ≡ opened_model config) }
        ensures output { IfOk result (λ player. player.output.items ≡ []) }
    {
        let output = output_buffer(alloc)?;
        match Node::new(alloc, config) {
            Ok(node) => Ok(Player {
                node,
                bytes: Vec::new(alloc),
                records: Outbox::new(alloc),
                output,
            }),
            Err(_) => Err(AllocError),
        }
    }

    /// Plays the line of that number, which comes without its end.
    #[tactic(auto, unfolding(crate::specs::ScriptSteps::LineComesTo))]
    pub(crate) fn take_line<W: Write>(
        &mut self,
        line: &[u8],
        number: u64,
        writer: &mut W,
    ) -> Result<(), ScriptFault>
        ensures line { LineComesTo self.old self.new
            (W.contents writer.old) (W.contents writer.new)
            number (line_of line.now) result }
    {
        match read_event(&mut self.bytes, line) {
            Ok(None) => Ok(()),
            Ok(Some(event)) => {
                match play(&mut self.node, &event, &mut self.records, &mut self.output) {
                    Ok(()) => flush_full(&mut self.output, writer),
                    Err(_) => Err(ScriptFault::OutOfMemory),
                }
            }
            Err(LineFault::OutOfMemory) => Err(ScriptFault::OutOfMemory),
            Err(fault) => Err(ScriptFault::Line(number, fault)),
        }
    }
}
