//! A node that a test owns, and drives by lines.

use crate::same::same;
use std::alloc::Global;
use std::process::Abort;
use std::test::Fail;
use trdp_dataset::NodeConfig;
use trdp_engine::{Event, Node, NodeFault, Outbox};
use trdp_text::{print_record, read_event};

/// Gives an event to a node, as a network gives events to its nodes. Its contract says nothing of
/// what [`Node::step`] does, so that its callers have less to prove.
pub fn step(node: &mut Node, event: &Event<'_>, out: &mut Outbox) -> Result<(), NodeFault> {
    trdp_net::step(node, event, out)
}

/// A node, with the records that it has made.
#[derive(Drop)]
pub struct NodeBench {
    pub node: Node,
    pub out: Outbox,
}

impl NodeBench {
    /// A new node of that configuration, whose outbox is empty.
    pub fn new(alloc: Global, config: &[u8]) -> Result<NodeBench, Fail> {
        let config = NodeConfig::from_toml(alloc, config)?;
        let node = Node::new(alloc, config).ok().ok_or("no memory")?;
        let out = Outbox::new(alloc);
        Ok(NodeBench { node, out })
    }

    /// Gives the event of a line to the node.
    pub fn take(&mut self, alloc: Global, line: &str) -> Result<(), Fail> {
        let mut buffer = Vec::new(alloc);
        match read_event(&mut buffer, line.as_bytes()) {
            Ok(None) => Ok(()),
            Ok(Some(event)) => Ok(step(&mut self.node, &event, &mut self.out)?),
            Err(fault) => Err(fault.into()),
        }
    }

    /// Gives the events of the lines to the node, and drops its records.
    fn take_all(&mut self, alloc: Global, lines: &[&str]) -> Result<(), Fail> {
        for line in lines {
            self.take(alloc, line)?;
        }
        self.out.clear();
        Ok(())
    }

    /// A new node of that configuration that has processed the lines, and whose outbox is empty.
    pub fn after(alloc: Global, config: &[u8], lines: &[&str]) -> Result<NodeBench, Fail> {
        let mut bench = NodeBench::new(alloc, config)?;
        bench.take_all(alloc, lines)?;
        Ok(bench)
    }

    /// The records of the outbox as lines.
    fn lines(&self, alloc: Global) -> Result<Vec<u8>, Fail> {
        let mut text = Vec::new(alloc);
        for index in 0..self.out.len() {
            if let Some(record) = self.out.get(index) {
                print_record(&mut text, &record)?;
            }
        }
        Ok(text)
    }

    /// Asserts that the records of the outbox are these lines, and drops them.
    pub fn tells(
        &mut self,
        rt: &(impl Abort + AllocGlobal),
        lines: &'static str,
    ) -> Result<(), Fail> {
        let text = self.lines(rt.alloc())?;
        same(rt, "the records", str::from_utf8(&text)?, lines);
        self.out.clear();
        Ok(())
    }
}

/// Lends a node to a call, and returns the call's result. The owner of a node has to drop it,
/// which takes long to prove: so tests pass it to this one function.
pub fn lend<T, F: Fn(&mut NodeBench) -> Result<T, Fail>>(
    bench: Result<NodeBench, Fail>,
    call: F,
) -> Result<T, Fail>
    requires { F.IsAlwaysCallable call }
{
    match bench {
        Ok(mut bench) => call(&mut bench),
        Err(fault) => Err(fault),
    }
}
