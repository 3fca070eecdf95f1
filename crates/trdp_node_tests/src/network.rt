//! A network of four running nodes, which a test drives by lines.
//!
//! No contract of `trdp_net` says that anything is reported at all: a network in which an
//! allocation fails at every event keeps each promise. Here a request to a group is answered, a
//! query confirmed and a notification heard, over a network that loses, repeats and reorders.

mod exchanges;
mod faults;
mod repeats;

use crate::same::same;
use std::alloc::{AllocError, Global};
use std::process::Abort;
use std::test::Fail;
use trdp_dataset::NodeConfig;
use trdp_engine::Event;
use trdp_net::{Network, NetworkFault};
use trdp_text::{print_record, read_event};

/// The configurations of the nodes. The last one has other ports.
static NODES: [&str; 4] = [
    "\
[node]
address = \"10.0.0.1\"
[[slot]]
publishers = 1
callers = 1
",
    "\
[node]
address = \"10.0.0.2\"
[[slot]]
listeners = 2
repliers = 1
",
    "\
[node]
address = \"10.0.0.3\"
[[slot]]
listeners = 1
repliers = 1
",
    "\
[node]
address = \"10.0.0.4\"
pd_port = 17234
md_port = 17235
[[slot]]
",
];

/// No event here reports more than that many records.
const TOLD_MAX: usize = 8;

/// What is done at a node.
enum Act {
    /// It gets the event of the line.
    Take(&'static str),
    /// The telegram of that number is delivered there.
    Deliver(usize),
}

/// A step that the network accepts.
struct Step {
    /// The number of the node.
    node: usize,
    act: Act,
    /// What it reports, as lines.
    tells: &'static str,
}

/// A network, and the allocator that its records take their memory from.
#[derive(Drop)]
struct NetworkBench {
    alloc: Global,
    network: Network,
}

impl NetworkBench {
    /// The network of new nodes.
    fn new(alloc: Global) -> Result<NetworkBench, Fail> {
        let mut configs = Vec::new(alloc);
        for config in NODES {
            configs.push(NodeConfig::from_toml(alloc, config.as_bytes())?)?;
        }
        let network = Network::new(alloc, configs)?;
        Ok(NetworkBench { alloc, network })
    }

    /// Gives an event to the node of that number. Its contract says nothing of what
    /// [`Network::take`] does, so that its callers have less to prove.
    fn step(&mut self, node: usize, event: &Event<'_>) -> Result<(), NetworkFault> {
        self.network.take(node, event)
    }

    /// Gives the event of a line to the node of that number; None where the line has none.
    fn take(&mut self, node: usize, line: &str) -> Option<Result<(), NetworkFault>> {
        let mut buffer = Vec::new(self.alloc);
        match read_event(&mut buffer, line.as_bytes()) {
            Ok(Some(event)) => Some(self.step(node, &event)),
            Ok(None) | Err(_) => None,
        }
    }

    /// Delivers the telegram of that number at the node.
    fn deliver(&mut self, node: usize, which: usize) -> Result<(), NetworkFault> {
        self.network.deliver(which, node)
    }

    /// Does this at the node of that number, and returns the result.
    fn act(&mut self, node: usize, act: &Act) -> Option<Result<(), NetworkFault>> {
        match act {
            Act::Take(line) => self.take(node, line),
            Act::Deliver(which) => Some(self.deliver(node, *which)),
        }
    }

    /// What the latest event reported, as lines.
    fn told(&self) -> Result<Vec<u8>, AllocError> {
        let mut text = Vec::new(self.alloc);
        for i in 0..TOLD_MAX {
            if let Some(record) = self.network.told(i) {
                print_record(&mut text, &record)?;
            }
        }
        Ok(text)
    }

    /// Asserts that the latest event reported these lines.
    fn tells(
        &self,
        rt: &(impl Abort + AllocGlobal),
        case: &'static str,
        lines: &'static str,
    ) -> Result<(), Fail> {
        let told = self.told()?;
        same(rt, case, str::from_utf8(&told)?, lines);
        Ok(())
    }

    /// Asserts that the network accepts these steps and reports what they say.
    fn play(
        &mut self,
        rt: &(impl Abort + AllocGlobal),
        case: &'static str,
        steps: &'static [Step],
    ) -> Result<(), Fail> {
        for step in steps {
            same(rt, case, self.act(step.node, &step.act), Some(Ok(())));
            self.tells(rt, case, step.tells)?;
        }
        Ok(())
    }
}
