ghost use Rattle.std.specs.Prelude.{◌≡◌, ◌<◌, ◌++◌, length, take, min};
ghost use Rattle.ps_edge.specs.Pieces.{drop_empty, front, pieces, advanced};

use ps_base::{List, Octets};
use std::marker::Model;

/// Bytes that come in pieces. A part of them was read.
#[derive(Drop)]
pub(crate) struct Pieces {
    items: List<Octets>,
    at: usize,
    taken: usize,
}

impl Model for Pieces {
    ghost use Rattle.std.specs.Prelude.{◌≤◌, length, drop};
    ghost use Rattle.ps_edge.specs.Pieces.{Stream, front, past_of, cut};

    ghost Value = { Stream };

    ghost view = { λ p. record { past = past_of p.at p.taken p.items; pieces = cut p.taken (drop p.at p.items) } };

    ghost invariant = { λ p. p.taken ≤ length (front (drop p.at p.items)) };
}

impl Pieces {
    pub(crate) fn new(items: List<Octets>) -> Pieces
        ensures { result ≡ pieces items }
    {
        Pieces {
            items,
            at: 0,
            taken: 0,
        }
    }

    /// Goes on to the next piece that has bytes.
    fn skip_empty(&mut self)
        ensures past { self.new.past ≡ self.old.past }
        ensures pieces { self.new.pieces ≡ drop_empty self.old.pieces }
    {
        while self.at < self.items.len() {
            if self.items.as_slice()[self.at].len() > self.taken {
                return;
            }
            self.at += 1;
            self.taken = 0;
        }
    }

    /// Reads from the next piece that has bytes, as many as it has and the room takes. Returns their number, which is 0
    /// if no piece is left.
    pub(crate) fn read(&mut self, room: &mut [u8]) -> usize
        requires { 0 < length room.old }
        ensures count { result ≡ min (length (front (drop_empty self.old.pieces))) (length room.old) }
        ensures moved { self.new ≡ advanced self.old result }
        ensures bytes { take result room.new ≡ take result (front (drop_empty self.old.pieces)) }
        ensures room { length room.new ≡ length room.old }
    {
        self.skip_empty();
        if self.at >= self.items.len() {
            return 0;
        }
        let rest = &self.items.as_slice()[self.at].as_slice()[self.taken..];
        let count = copy_front(rest, room);
        self.taken += count;
        count
    }
}

/// Copies bytes into the front of the room, as many as it takes. Returns their number.
fn copy_front(bytes: &[u8], room: &mut [u8]) -> usize
    ensures count { result ≡ min (length bytes.now) (length room.old) }
    ensures bytes { take result room.new ≡ take result bytes.now }
    ensures room { length room.new ≡ length room.old }
{
    let count = bytes.len().min(room.len());
    room[..count].copy_from_slice(&bytes[..count]);
    count
}
