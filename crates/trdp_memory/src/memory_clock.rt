//! A clock that reads a list, for tests.

ghost use Rattle.std.specs.Prelude.{◌≡◌, ◌+◌, ◌∷◌, [], min, ◌-◌, ◌^◌, IfOk, IfSome, Some, true};
ghost use Rattle.std.specs.Prelude.{◌&&◌, nat_lt};
ghost use Rattle.trdp_memory.specs.MemoryClocks.{reading_at, told_readings, told_sleeps};
ghost use Rattle.trdp_base.specs.Reported.{TellsMore};

use std::alloc::{AllocError, Global};
use trdp_wire::{Clock, Sleeper};

/// A clock that reads the numbers of a list in order, and then the last one again and again; of an
/// empty list it reads 0. It reports its readings, up to 2^64 - 1 of them, and then none. It
/// doesn't sleep, and reports how long it was asked to, until an allocation fails.
#[derive(Drop)]
pub struct MemoryClock {
    /// What it reads, in order.
    moments: Vec<u64>,
    /// How many readings there were, at most 2^64 - 1.
    count: u64,
    /// Whether it reports them.
    tells: bool,
    /// How long it would have slept, in microseconds and in order.
    sleeps: Vec<u64>,
    /// Whether it reports these.
    tells_sleeps: bool,
}

impl MemoryClock {
    /// A clock that reads these numbers.
    ///
    /// # Errors
    /// `AllocError` if an allocation for the list fails.
    pub fn new(alloc: Global, moments: &[u64]) -> Result<MemoryClock, AllocError>
        ensures moments { IfOk result (λ clock. clock.moments.items ≡ moments.now) }
        ensures count { IfOk result (λ clock. clock.count ≡ 0) }
        ensures tells { IfOk result (λ clock. clock.tells ≡ true) }
        ensures sleeps { IfOk result (λ clock. told_sleeps clock ≡ Some []) }
    {
        let moments = moments.to_vec(alloc)?;
        Ok(MemoryClock {
            moments,
            count: 0,
            tells: true,
            sleeps: Vec::new(alloc),
            tells_sleeps: true,
        })
    }

    /// How long it would have slept, in microseconds and in order, until an allocation failed.
    pub fn sleeps(&self) -> &[u64]
        ensures { IfSome (told_sleeps self.now) (λ sleeps. sleeps ≡ result.now) }
    {
        &self.sleeps
    }
}

impl Clock for MemoryClock {
    ghost readings = { told_readings };

    ghost sleeps = { told_sleeps };

    fn now(&mut self) -> u64
        ensures told { TellsMore (told_readings self.old) (told_readings self.new) (result ∷ []) }
        ensures reading { result ≡ reading_at self.old.moments.items self.old.count }
        ensures moments { self.new.moments.items ≡ self.old.moments.items }
        ensures count { self.new.count ≡ min (self.old.count + 1) (2 ^ 64 - 1) }
        ensures tells { self.new.tells ≡ self.old.tells && nat_lt self.old.count (2 ^ 64 - 1) }
        ensures sleeps_nothing { told_sleeps self.new ≡ told_sleeps self.old }
    {
        let reading = reading_at(&self.moments, self.count);
        if self.count < u64::MAX {
            self.count += 1;
        } else {
            self.tells = false;
        }
        reading
    }
}

impl Sleeper for MemoryClock {
    fn sleep(&mut self, micros: u64)
        ensures told { TellsMore (told_sleeps self.old) (told_sleeps self.new) (micros ∷ []) }
        ensures reads_nothing { told_readings self.new ≡ told_readings self.old }
        ensures moments { self.new.moments.items ≡ self.old.moments.items }
        ensures count { self.new.count ≡ self.old.count }
    {
        if self.sleeps.push(micros).is_err() {
            self.tells_sleeps = false;
        }
    }
}

/// The reading of that index, from 0.
fn reading_at(moments: &[u64], index: u64) -> u64
    ensures { result ≡ reading_at moments.now index }
{
    let last = moments.len().saturating_sub(1);
    let index = if index < last as u64 {
        index as usize
    } else {
        last
    };
    match moments.get(index) {
        Some(moment) => *moment,
        None => 0,
    }
}
