//! What is laid down for a wire in memory.

use crate::arrivals::Arrival;
use crate::memory_wire::MemoryWire;
use std::alloc::AllocError;
use trdp_base::Place;
use trdp_wire::Port;

/// The line that is handed in if an application has ended.
const RESET: &[u8] = b"reset";

impl MemoryWire {
    ghost use Rattle.std.specs.Prelude.{◌≡◌, OnErr, OnOk, true, false};
    ghost use Rattle.trdp_lines.specs.Said.{reset_line};
    ghost use Rattle.trdp_memory.specs.MemoryWires.{with_arrival, with_failing_give};
    ghost use Rattle.trdp_memory.specs.MemoryWires.{with_failing_take};

    /// Lays down that a datagram arrives at the port at the take of that number, from 1; of two
    /// for one take the first arrives.
    ///
    /// # Errors
    /// `AllocError` if an allocation for it fails.
    pub fn arrive(
        &mut self,
        port: Port,
        take: usize,
        from: Place,
        bytes: &[u8],
    ) -> Result<(), AllocError>
        ensures laid_down { OnOk result (self.new ≡ with_arrival self.old (record {
          port = port;
          at_take = take;
          from = from;
          bytes = bytes.now;
          ends = false;
        })) }
        ensures kept { OnErr result (self.new ≡ self.old) }
    {
        self.lay_down(port, take, from, bytes, false)
    }

    /// Lays down that the application at that place has ended, and its end arrives at the port at
    /// the take of that number, from 1: as the line `reset` from there, of which
    /// `find` says that it is an end, and `take` nothing.
    ///
    /// # Errors
    /// `AllocError` if an allocation for it fails.
    pub fn end(&mut self, port: Port, take: usize, from: Place) -> Result<(), AllocError>
        ensures laid_down { OnOk result (self.new ≡ with_arrival self.old (record {
          port = port;
          at_take = take;
          from = from;
          bytes = reset_line;
          ends = true;
        })) }
        ensures kept { OnErr result (self.new ≡ self.old) }
    {
        self.lay_down(port, take, from, RESET, true)
    }

    /// Lays down that the take of that number fails, counted from 1 over all ports; what is to
    /// arrive at it never comes.
    ///
    /// # Errors
    /// `AllocError` if an allocation for it fails.
    pub fn fail_take(&mut self, number: usize) -> Result<(), AllocError>
        ensures laid_down { OnOk result (self.new ≡ with_failing_take self.old number) }
        ensures kept { OnErr result (self.new ≡ self.old) }
    {
        self.failing_takes.push(number)?;
        Ok(())
    }

    /// Lays down that the give of that number fails, counted from 1 over all ports.
    ///
    /// # Errors
    /// `AllocError` if an allocation for it fails.
    pub fn fail_give(&mut self, number: usize) -> Result<(), AllocError>
        ensures laid_down { OnOk result (self.new ≡ with_failing_give self.old number) }
        ensures kept { OnErr result (self.new ≡ self.old) }
    {
        self.failing_gives.push(number)?;
        Ok(())
    }

    /// Lays down one more datagram, or the end of an application.
    ///
    /// # Errors
    /// `AllocError` if an allocation for it fails.
    fn lay_down(
        &mut self,
        port: Port,
        take: usize,
        from: Place,
        bytes: &[u8],
        ends: bool,
    ) -> Result<(), AllocError>
        ensures laid_down { OnOk result (self.new ≡ with_arrival self.old (record {
          port = port;
          at_take = take;
          from = from;
          bytes = bytes.now;
          ends = ends;
        })) }
        ensures kept { OnErr result (self.new ≡ self.old) }
    {
        let bytes = bytes.to_vec(self.alloc)?;
        self.arrivals.push(Arrival {
            port,
            at_take: take,
            from,
            bytes,
            ends,
        })?;
        Ok(())
    }
}
