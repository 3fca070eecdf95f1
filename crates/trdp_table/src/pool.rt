//! The objects of all slots, in one pool.

ghost use Rattle.std.specs.Prelude.{◌≡◌, ◌<◌, ◌≤◌, ◌+◌, [], ◌++◌, length, Some, None, IfOk};
ghost use Rattle.std.specs.Prelude.{OnOk, OnErr, IsSome, is_some, replicate, option_map};
ghost use Rattle.std.specs.Prelude.{option_copied, slice_index_or, slice_set};
ghost use Rattle.std.specs.Prelude.{vec_len, vec_capacity};
ghost use Rattle.std.specs.List.{range_with_len};
ghost use Rattle.std.specs.Borrow.{sem};
ghost use Rattle.trdp_table.specs.Pools.{held_in, owner_in, held_count};

use crate::held::Held;
use slab::Slab;
use std::alloc::{AllocError, Global};
use std::marker::Model;
use trdp_model::AnyObject;

/// Objects under keys below the room: a key is that of one object until this is removed, and may
/// then become that of another one.
#[derive(Drop)]
pub struct Pool {
    /// The objects, at places of the slab's own choice.
    slab: Slab<Held>,
    /// For each key the object's place in the slab; None where the key is free.
    places: Vec<Option<usize>>,
    /// The free keys, of which the last is used next, in a list with room for all keys.
    free: Vec<usize>,
}

impl Model for Pool {
    ghost use Rattle.std.specs.Prelude.{map, vec_capacity};
    ghost use Rattle.trdp_table.specs.Pools.{PoolState, placed, IsKeptPool};

    ghost Value = { PoolState };

    ghost view = { λ p. map (placed p.slab) p.places.items };

    ghost invariant = { λ p. IsKeptPool p.slab p.places.items p.free.items (vec_capacity p.free) };
}

/// Adds `more` keys, all of them free, for which both lists have room.
fn add_keys(places: &mut Vec<Option<usize>>, free: &mut Vec<usize>, more: usize)
    requires places { vec_len places.old + more ≤ vec_capacity places.old }
    requires free { vec_len free.old + more ≤ vec_capacity free.old }
    ensures places { places.new.items ≡ places.old.items ++ replicate more None }
    ensures free { free.new.items
        ≡ free.old.items ++ range_with_len (length places.old.items) more }
    ensures capacity { vec_capacity free.new ≡ vec_capacity free.old }
{
    for _ in 0..more {
        free.push_reserved(places.len());
        places.push_reserved(None);
    }
}

/// The place of a key that has one.
fn place_of(places: &[Option<usize>], key: usize) -> usize
    requires { IsSome (slice_index_or places.now key None) }
    ensures { slice_index_or places.now key None ≡ Some result }
{
    match places.get(key) {
        Some(Some(place)) => *place,
        _ => unreachable!(),
    }
}

impl Pool {
    ghost use Rattle.trdp_table.specs.Lending.{LendsOfPool};

    /// A pool without keys, which takes no memory.
    fn empty(alloc: Global) -> Pool
        ensures { result ≡ [] }
    {
        let places = Vec::new(alloc);
        let free = Vec::new(alloc);
        let slab = Slab::new(alloc);
        Pool { slab, places, free }
    }

    /// An empty pool, with the memory for as many objects as its room.
    ///
    /// # Errors
    /// [`AllocError`] where there is no such memory.
    pub fn new(alloc: Global, room: usize) -> Result<Pool, AllocError>
        ensures { IfOk result (λ pool. pool ≡ replicate room None) }
    {
        let mut pool = Pool::empty(alloc);
        pool.grow(room)?;
        Ok(pool)
    }

    /// Makes room for `more` objects: it adds that many keys, all of them free, and takes the
    /// memory for these objects.
    ///
    /// # Errors
    /// [`AllocError`] where there is no such memory; no key was added.
    pub fn grow(&mut self, more: usize) -> Result<(), AllocError>
        ensures ok { OnOk result (self.new ≡ self.old ++ replicate more None) }
        ensures err { OnErr result (self.new ≡ self.old) }
    {
        // Each key is free or holds an object: the free list has those that are free, and the slab
        // the objects of the others.
        let held = self.slab.len();
        self.places.reserve_exact(more)?;
        self.free.reserve_exact(held + more)?;
        self.slab.reserve_exact(self.free.len() + more)?;
        add_keys(&mut self.places, &mut self.free, more);
        Ok(())
    }

    /// How many objects it can hold: each key is below this.
    pub fn room(&self) -> usize
        ensures { result ≡ length self.now }
    {
        self.places.len()
    }

    /// What is held under that key; None where the key is free or there is no such key.
    pub fn get(&self, key: usize) -> Option<&Held>
        ensures { option_copied result ≡ held_in self.now key }
    {
        match self.places.get(key) {
            Some(Some(place)) => self.slab.get(*place),
            _ => None,
        }
    }

    /// Holds an object under a free key, and returns that key.
    pub fn insert(&mut self, held: Held) -> usize
        requires { held_count self.old < length self.old }
        ensures vacant { held_in self.old result ≡ None }
        ensures within { result < length self.old }
        ensures pool { self.new ≡ slice_set self.old result (Some held) }
    {
        let Some(key) = self.free.pop() else {
            unreachable!()
        };
        let place = self.slab.insert_reserved(held);
        self.places[key] = Some(place);
        key
    }

    /// Takes out the object of a key, and frees the key.
    pub fn remove(&mut self, key: usize) -> Held
        requires { IsSome (held_in self.old key) }
        ensures held { held_in self.old key ≡ Some result }
        ensures pool { self.new ≡ slice_set self.old key None }
    {
        let place = place_of(&self.places, key);
        self.places[key] = None;
        self.free.push_reserved(key);
        self.slab.remove(place)
    }

    /// Lends the object of a key alone.
    pub fn object_mut(&mut self, key: usize) -> &mut AnyObject
        requires { IsSome (held_in self.old key) }
        ensures* writes_back { sem 𝓛 (LendsOfPool self.entry key result) }
        ensures value { Some result.now
            ≡ option_map (λ held. held.object) (held_in self.old key) }
    {
        let place = place_of(&self.places, key);
        let held = &mut self.slab[place];
        &mut held.object
    }
}
