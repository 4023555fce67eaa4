//! One end of a connection in memory.
ghost use Rattle.std.specs.Prelude.{◌≡◌, ◌≢◌, ◌≤◌, [], true, length, IfOk};
ghost use Rattle.nio_link.specs.Links.{IsGot, IsPut};
ghost use Rattle.nio_link.specs.MemoryLinks.{link_ready, link_after_read, link_after_write, put_of};
ghost use Rattle.nio_link.specs.Pieces.{got_of, buffer_after};

use crate::memory::peer_no::PeerNo;
use crate::memory::pieces::Pieces;
use crate::net::{Failed, Got, Put};
use nio_base::Ops;
use std::marker::Model;

/// One end of a connection. Memory for what it gives and takes was taken when it was made.
#[derive(Drop)]
pub(crate) struct MemoryLink {
    pub(crate) peer: PeerNo,
    pub(crate) pieces: Pieces,
    pub(crate) got: Vec<u8>,
    pub(crate) ended: bool,
    pub(crate) put: Vec<u8>,
    pub(crate) shut: bool,
    pub(crate) most: usize,
    pub(crate) limit: usize,
    pub(crate) fail_connect: bool,
}

impl Model for MemoryLink {
    ghost use Rattle.std.specs.Prelude.{◌+◌, ◌≤◌, vec_len, vec_capacity};
    ghost use Rattle.nio_link.specs.MemoryLinks.{LinkState};
    ghost use Rattle.nio_link.specs.Pieces.{total};

    ghost Value = { LinkState };

    ghost view = { λ l. record {
      peer = l.peer;
      pieces = l.pieces;
      got = l.got.items;
      ended = l.ended;
      put = l.put.items;
      shut = l.shut;
      most = l.most;
      limit = l.limit;
      fail_connect = l.fail_connect;
    } };

    ghost invariant = { λ l. (vec_len l.got + total l.pieces ≤ vec_capacity l.got)
        × (vec_len l.put ≤ l.limit) × (l.limit ≤ vec_capacity l.put) × (1 ≤ l.most) };
}

impl MemoryLink {
    // Which operations it is ready for, once it is connected.
    pub(crate) fn ready(&self) -> Ops
        ensures { result ≡ link_ready self.now.ended self.now.shut }
    {
        let reading = if self.ended { Ops::NONE } else { Ops::READ };
        let writing = if self.shut { Ops::NONE } else { Ops::WRITE };
        reading.union(writing)
    }

    pub(crate) fn read(&mut self, into: &mut [u8]) -> Got
        requires { into.old ≢ [] }
        ensures answer { result ≡ got_of self.old.pieces (length into.old) }
        ensures buffer { into.new ≡ buffer_after self.old.pieces into.old }
        ensures after { self.new ≡ link_after_read self.old into.old }
        ensures got { IsGot into.old result }
    {
        match self.pieces.read(into) {
            Got::Bytes(count) => {
                self.got.extend_from_slice(&into[..count]).unwrap();
                Got::Bytes(count)
            }
            Got::End => {
                self.ended = true;
                Got::End
            }
            Got::NotYet => Got::NotYet,
        }
    }

    pub(crate) fn write(&mut self, from: &[u8]) -> Result<Put, Failed>
        requires { from.now ≢ [] }
        ensures answer { result ≡ put_of self.old (length from.now) }
        ensures after { self.new ≡ link_after_write self.old from.now }
        ensures put { IfOk result (IsPut from.now) }
    {
        if self.put.len() >= self.limit {
            return Err(Failed);
        }
        let count = from.len().min(self.most.min(self.limit - self.put.len()));
        self.put.extend_from_slice(&from[..count]).unwrap();
        Ok(Put::Bytes(count))
    }

    pub(crate) fn shut_write(&mut self)
        ensures { self.new ≡ record self.old { shut = true } }
    {
        self.shut = true;
    }
}
