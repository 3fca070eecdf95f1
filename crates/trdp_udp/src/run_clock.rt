//! The system's clock.

ghost use Rattle.std.specs.Prelude.{◌≡◌, None, Option};
ghost use Rattle.std.specs.declared.time.Instant.{Instant};
ghost use Rattle.trdp_udp.specs.RunClocks.{CountsReading, micros_between};

use std::time::{Duration, Instant};
use std::{thread, time};
use trdp_wire::{Clock, Sleeper};

/// The microseconds since the first time that the system's clock gave. If that clock fails, it
/// repeats its last number, at first 0. It reports no readings and no sleeps.
#[derive(Drop)]
pub struct RunClock<'a, R: time::Clock> {
    /// The system, which has the clock.
    rt: &'a R,
    /// The first time that it gave; None before.
    start: Option<Instant>,
    /// The last number.
    last: u64,
}

impl<'a, R: time::Clock> RunClock<'a, R> {
    /// A clock that hasn't read yet.
    pub fn new(rt: &'a R) -> RunClock<'a, R>
        ensures start { result.start ≡ None }
        ensures last { result.last ≡ 0 }
    {
        RunClock {
            rt,
            start: None,
            last: 0,
        }
    }

    /// The number of a time, or of a reading at which the system's clock gave none.
    fn read(&mut self, moment: Option<Instant>) -> u64
        ensures { CountsReading self.old self.new moment result }
    {
        match (self.start, moment) {
            (Some(start), Some(moment)) => self.last = micros_between(start, moment),
            (None, _) => self.start = moment,
            (Some(_), None) => {}
        }
        self.last
    }
}

impl<'a, R: time::Clock> Clock for RunClock<'a, R> {
    fn now(&mut self) -> u64
        ensures told { (moment : Option Instant)
            × CountsReading self.old self.new moment result }
    {
        let moment = Instant::now(self.rt).ok();
        self.read(moment)
    }
}

impl<'a, R: time::Clock> Sleeper for RunClock<'a, R> {
    fn sleep(&mut self, micros: u64)
        ensures { self.new ≡ self.old }
    {
        thread::sleep(self.rt, Duration::from_micros(micros));
    }
}

/// The microseconds from one time to another, at most 2^64 - 1.
fn micros_between(start: Instant, moment: Instant) -> u64
    ensures { result ≡ micros_between start moment }
{
    let micros = moment.duration_since(start).as_micros();
    u64::try_from(micros).unwrap_or(u64::MAX)
}
