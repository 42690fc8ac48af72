ghost use Rattle.std.specs.Prelude.{◌≡◌, ◌<◌, ◌≤◌, ◌++◌, ℕ, List, length, take, Option, option_map, MatchResult, IfOk, OnOk};
ghost use Rattle.ps_edge.specs.Edge.{Adds, HasWriteCause};
ghost use Rattle.ps_edge.specs.Links.{TakesPart, Receives, HasLinkCause};

use crate::edge::Failed;

/// What a read of a link gives: a number of bytes, the end, nothing so far, or a fault.
#[derive(Clone, Copy, PartialEq, Eq)]
pub enum LinkGot {
    Bytes(usize),
    End,
    NotYet,
    Failed,
}

/// A connection: bytes come from it and go to it.
pub trait Link {
    /// What is left to read, if that is known.
    ghost left: { Self → Option (List ℕ) };

    /// What was read, if that is known.
    ghost received: { Self → Option (List ℕ) };

    /// What was written, if that is known.
    ghost holds: { Self → Option (List ℕ) };

    /// How often a read or a write failed.
    ghost faults: { Self → ℕ };

    /// How often a read found nothing so far.
    ghost waits: { Self → ℕ };

    /// Reads some bytes into the front of the room. After a fault, and if nothing came so far, it may be called again.
    fn read(&mut self, room: &mut [u8]) -> LinkGot
        requires { 0 < length room.old }
        ensures bytes { TakesPart (left self.old) (left self.new) room.new result }
        ensures received { Receives (received self.old) (received self.new) room.new result }
        ensures holds { holds self.new ≡ holds self.old }
        ensures cause { HasLinkCause (faults self.old) (faults self.new) (waits self.old) (waits self.new) result };

    /// Writes some bytes from the front of a piece, and returns how many. A write that fails adds nothing.
    fn write(&mut self, piece: &[u8]) -> Result<usize, Failed>
        requires { 0 < length piece.now }
        ensures took { IfOk result (λ n. (0 < n) × (n ≤ length piece.now)) }
        ensures bytes { MatchResult result (λ n. Adds (holds self.old) (holds self.new) piece.now n) (λ _. holds self.new ≡ holds self.old) }
        ensures left { left self.new ≡ left self.old }
        ensures received { received self.new ≡ received self.old }
        ensures cause { HasWriteCause (faults self.old) (faults self.new) result }
        ensures waits { waits self.old ≤ waits self.new };
}

/// Writes the whole text to a link. After a fault only a front of it was written.
pub fn send_all<L: Link>(link: &mut L, text: &[u8]) -> Result<(), Failed>
    ensures whole { OnOk result (L.holds link.new ≡ option_map (λ held. held ++ text.now) (L.holds link.old)) }
    ensures part { (k : ℕ) × (L.holds link.new ≡ option_map (λ held. held ++ take k text.now) (L.holds link.old)) }
    ensures left { L.left link.new ≡ L.left link.old }
    ensures received { L.received link.new ≡ L.received link.old }
    ensures cause { HasWriteCause (L.faults link.old) (L.faults link.new) result }
    ensures waits { L.waits link.old ≤ L.waits link.new }
{
    let mut done = 0;
    while done < text.len() {
        let count = link.write(&text[done..])?;
        done += count;
    }
    Ok(())
}
