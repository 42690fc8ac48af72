ghost use Rattle.std.specs.Prelude.{◌≡◌, ◌<◌, ◌≤◌, ◌+◌, ◌&&◌, ◌⊎◌, ◌↔◌, ◌++◌, [], length, not, Some, IsTrue, IsErr, is_err, IfOk, MatchResult};
ghost use Rattle.ps_edge.specs.Edge.{Adds, HasWriteCause};
ghost use Rattle.ps_edge.specs.Links.{TakesPart, Receives, HasLinkCause};
ghost use Rattle.ps_edge.specs.Memory.{after_call, fails_next, unread};
ghost use Rattle.ps_edge.specs.MemoryLinks.{after_read, link_got, waits_next};
ghost use Rattle.ps_edge.specs.Pieces.{joined, pieces};

use crate::edge::{Failed, Sink};
use crate::link::{Link, LinkGot};
use crate::memory::{MemorySink, Script};
use crate::pieces::Pieces;
use ps_base::{List, Octets};
use std::alloc::Global;
use std::marker::Model;

/// A connection in memory. Its reads give the pieces one after another, and its reads and its writes are counted from 1.
/// The calls that its scripts name fail or find nothing so far, and no others; but a write also fails if it runs out of
/// memory.
#[derive(Drop)]
pub struct MemoryLink {
    input: Pieces,
    reads: Script,
    waiting: Script,
    output: MemorySink,
}

impl Model for MemoryLink {
    ghost use Rattle.ps_edge.specs.MemoryLinks.{Connection};

    ghost Value = { Connection };

    ghost view = { λ l. record { input = l.input; reads = l.reads; waiting = l.waiting; output = l.output } };
}

impl MemoryLink {
    /// A link that gives these pieces. The scripts name the reads that fail, the reads that find nothing so far, and the
    /// writes that fail. If a script of reads and that of waits name one read, it fails.
    pub fn new(
        alloc: Global,
        items: List<Octets>,
        failing_reads: List<u64>,
        waiting_reads: List<u64>,
        failing_writes: List<u64>,
    ) -> MemoryLink
        ensures input { result.input ≡ pieces items }
        ensures reads { result.reads ≡ unread failing_reads }
        ensures waiting { result.waiting ≡ unread waiting_reads }
        ensures bytes { result.output.bytes ≡ [] }
        ensures writes { result.output.script ≡ unread failing_writes }
    {
        MemoryLink {
            input: Pieces::new(items),
            reads: Script::new(failing_reads),
            waiting: Script::new(waiting_reads),
            output: MemorySink::new(alloc, failing_writes),
        }
    }

    /// The bytes that were written.
    pub fn written(&self) -> &[u8]
        ensures { result.now ≡ self.now.output.bytes }
    {
        self.output.bytes()
    }
}

impl Link for MemoryLink {
    ghost use Rattle.std.specs.Prelude.{◌+◌, Some};
    ghost use Rattle.ps_edge.specs.Pieces.{joined};

    ghost left = { λ l. Some (joined l.input.pieces) };

    ghost received = { λ l. Some l.input.past };

    ghost holds = { λ l. Some l.output.bytes };

    ghost faults = { λ l. l.reads.faults + l.output.script.faults };

    ghost waits = { λ l. l.waiting.faults };

    fn read(&mut self, room: &mut [u8]) -> LinkGot
        requires { 0 < length room.old }
        ensures bytes { TakesPart (Some (joined self.old.input.pieces)) (Some (joined self.new.input.pieces)) room.new result }
        ensures received { Receives (Some self.old.input.past) (Some self.new.input.past) room.new result }
        ensures output { self.new.output ≡ self.old.output }
        ensures cause { HasLinkCause (⟦<MemoryLink as Link>⟧.faults self.old) (⟦<MemoryLink as Link>⟧.faults self.new) self.old.waiting.faults self.new.waiting.faults result }
        ensures fails { (result ≡ LinkGot.Failed) ↔ IsTrue (fails_next self.old.reads) }
        ensures waits { (result ≡ LinkGot.NotYet) ↔ IsTrue (waits_next self.old) }
        ensures gives { result ≡ link_got self.old (length room.old) }
        ensures moved { self.new.input ≡ after_read self.old.input result }
        ensures reads { self.new.reads ≡ after_call self.old.reads (fails_next self.old.reads) }
        ensures waiting { self.new.waiting ≡ after_call self.old.waiting (waits_next self.old) }
    {
        let fails = self.reads.fails_next();
        let waits = !fails && self.waiting.fails_next();
        self.reads.count(fails);
        self.waiting.count(waits);
        if fails {
            return LinkGot::Failed;
        }
        if waits {
            return LinkGot::NotYet;
        }
        let count = self.input.read(room);
        if count == 0 {
            LinkGot::End
        } else {
            LinkGot::Bytes(count)
        }
    }

    fn write(&mut self, piece: &[u8]) -> Result<usize, Failed>
        requires { 0 < length piece.now }
        ensures took { IfOk result (λ n. n ≡ length piece.now) }
        ensures bytes { MatchResult result (λ n. Adds (Some self.old.output.bytes) (Some self.new.output.bytes) piece.now n) (λ _. self.new.output.bytes ≡ self.old.output.bytes) }
        ensures input { self.new.input ≡ self.old.input }
        ensures reads { self.new.reads ≡ self.old.reads }
        ensures waiting { self.new.waiting ≡ self.old.waiting }
        ensures cause { HasWriteCause (⟦<MemoryLink as Link>⟧.faults self.old) (⟦<MemoryLink as Link>⟧.faults self.new) result }
        ensures scripted { IsTrue (fails_next self.old.output.script) → IsErr result }
        // it fails by the script, or because it needs more memory than it has
        ensures fails { IsErr result → IsTrue (fails_next self.old.output.script) ⊎ (self.old.output.capacity < length self.old.output.bytes + length piece.now) }
        ensures capacity { self.old.output.capacity ≤ self.new.output.capacity }
        ensures counted { self.new.output.script ≡ after_call self.old.output.script (is_err result) }
    {
        self.output.write(piece)
    }
}
