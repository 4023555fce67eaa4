//! The bytes that reads of a link give, in pieces.
ghost use Rattle.std.specs.Prelude.{◌≡◌, ◌≢◌, [], min, length};
ghost use Rattle.nio_link.specs.Links.{IsGot};
ghost use Rattle.nio_link.specs.Pieces.{got_of, pieces_after, buffer_after, filled_by};

use crate::net::Got;
use std::marker::Model;
use std::vec::IntoIter;

/// Pieces of bytes, which reads use up. Contracts see the list of those left.
#[derive(Drop)]
pub(crate) struct Pieces {
    begun: Vec<u8>,
    at: usize,
    later: IntoIter<Vec<u8>>,
}

impl Model for Pieces {
    ghost use Rattle.std.specs.Prelude.{ℕ, ◌≤◌, List, map, drop, vec_len};
    ghost use Rattle.std.specs.Vec.Iter.{into_iter_items};
    ghost use Rattle.nio_link.specs.Pieces.{pieces_left};

    ghost Value = { List (List ℕ) };

    ghost view = { λ p. pieces_left (drop p.at p.begun.items) (map (λ piece. piece.items) (into_iter_items p.later)) };

    ghost invariant = { λ p. p.at ≤ vec_len p.begun };
}

impl Pieces {
    ghost use Rattle.std.specs.Prelude.{map};

    pub(crate) fn make(begun: Vec<u8>, pieces: Vec<Vec<u8>>) -> Pieces
        requires { begun.items ≡ [] }
        ensures { result ≡ map (λ piece. piece.items) pieces.items }
    {
        Pieces {
            begun,
            at: 0,
            later: pieces.into_iter(),
        }
    }

    /// Puts the next bytes at the front of the buffer, at most those of one piece. An empty piece gives nothing, once.
    pub(crate) fn read(&mut self, into: &mut [u8]) -> Got
        requires { into.old ≢ [] }
        ensures got { result ≡ got_of self.old (length into.old) }
        ensures is_got { IsGot into.old result }
        ensures buffer { into.new ≡ buffer_after self.old into.old }
        ensures left { self.new ≡ pieces_after self.old (length into.old) }
    {
        if self.at < self.begun.len() {
            let count = give(&self.begun[self.at..], into);
            self.at += count;
            return Got::Bytes(count);
        }
        let Some(piece) = self.later.next() else {
            return Got::End;
        };
        if piece.is_empty() {
            return Got::NotYet;
        }
        let count = give(&piece, into);
        self.begun = piece;
        self.at = count;
        Got::Bytes(count)
    }
}

// Puts the first bytes of a piece at the front of the buffer, and counts them.
fn give(piece: &[u8], into: &mut [u8]) -> usize
    ensures count { result ≡ min (length into.old) (length piece.now) }
    ensures buffer { into.new ≡ filled_by piece.now into.old }
{
    let count = into.len().min(piece.len());
    into[..count].copy_from_slice(&piece[..count]);
    count
}
