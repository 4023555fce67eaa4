//! The operations that a group has accepted: those in flight are kept, those that have ended are
//! known by their numbers alone.
ghost use Rattle.std.specs.Prelude.{◌≡◌, ℕ, ◌+◌, ◌<◌, ◌≤◌, ◌^◌, ◌++◌, ◌∷◌, [], IfOk, Some, None, IsSome, is_some};
ghost use Rattle.std.specs.Prelude.{count_by, length};
ghost use Rattle.nio_group.specs.Operations.{operation_at, with_operation};

use crate::index::Index;
use crate::operation::Operation;
use slab::Slab;
use std::alloc::{AllocError, Global};
use std::marker::Model;

/// An operation in flight, with its number.
#[derive(Clone, Copy, Debug)]
pub(crate) struct Numbered {
    pub(crate) number: u64,
    pub(crate) operation: Operation,
}

/// Operations by their numbers, which count from 0 in the order of acceptance. Only those in flight take room: they stand
/// in a slab, with an index from their numbers to their keys. No call but `make` takes memory.
#[derive(Drop)]
pub struct Operations {
    slab: Slab<Numbered>,
    index: Index,
    accepted: u64,
    limit: u32,
}

impl Model for Operations {
    ghost use Rattle.nio_group.specs.Operations.{Accepted};

    ghost Value = { Accepted };

    ghost use Rattle.nio_group.specs.Kept.{kept_operations, IsKept};

    ghost view = { λ o. record { operations = kept_operations o.slab o.index o.accepted; limit = o.limit } };

    ghost invariant = { λ o. IsKept o.slab o.index o.accepted o.limit };
}

impl Operations {
    /// Room for `limit` operations in flight.
    pub fn make(alloc: Global, limit: u32) -> Result<Operations, AllocError>
        requires some { 1 ≤ limit }
        requires few { limit ≤ 65536 }
        ensures empty { IfOk result (λ o. o ≡ record { operations = []; limit = limit }) }
    {
        let slab = Slab::with_capacity(alloc, limit as usize)?;
        let index = Index::make(alloc, limit as usize)?;
        Ok(Operations {
            slab,
            index,
            accepted: 0,
            limit,
        })
    }

    /// How many operations were accepted.
    pub fn accepted(&self) -> u64
        ensures { result ≡ length self.now.operations }
    {
        self.accepted
    }

    /// How many operations are in flight.
    pub fn in_flight(&self) -> usize
        ensures { result ≡ count_by is_some self.now.operations }
    {
        self.slab.len()
    }

    /// How many operations may be in flight.
    pub fn limit(&self) -> u32
        ensures { result ≡ self.now.limit }
    {
        self.limit
    }

    /// The operation of this number, where it is in flight.
    pub fn get(&self, number: u64) -> Option<Operation>
        ensures { result ≡ operation_at self.now number }
    {
        let key = self.index.get(number)?;
        let numbered = *self.slab.get(key)?;
        Some(numbered.operation)
    }

    /// Accepts one more operation and gives its number.
    pub fn accept(&mut self, operation: Operation) -> u64
        requires room { count_by is_some self.old.operations < self.old.limit }
        requires numbers { length self.old.operations < 2 ^ 62 }
        ensures number { result ≡ length self.old.operations }
        ensures accepts { self.new ≡ record self.old { operations = self.old.operations ++ Some operation ∷ [] } }
    {
        let number = self.accepted;
        let key = self.slab.insert_reserved(Numbered { number, operation });
        self.index.insert(number, key);
        self.accepted += 1;
        number
    }

    /// Puts this operation in the place of one in flight.
    pub fn replace(&mut self, number: u64, operation: Operation)
        requires { IsSome (operation_at self.old number) }
        ensures { self.new ≡ with_operation self.old number (Some operation) }
    {
        if let Some(key) = self.index.get(number) {
            self.slab[key] = Numbered { number, operation };
        }
    }

    /// Ends an operation in flight.
    pub fn end(&mut self, number: u64)
        requires { IsSome (operation_at self.old number) }
        ensures { self.new ≡ with_operation self.old number None }
    {
        if let Some(key) = self.index.get(number) {
            self.slab.remove(key);
            self.index.remove(number);
        }
    }
}
