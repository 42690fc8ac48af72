//! Streams that move few bytes at a time.

use ps_edge::{Failed, Got, MemorySink, MemorySource, Sink, Source};

/// Gives at most so many bytes a read.
#[derive(Drop)]
pub struct PiecedSource {
    pub inner: MemorySource,
    pub most: usize,
}

impl Source for PiecedSource {
    ghost use Rattle.std.specs.Prelude.{Some};

    ghost left = { λ s. Some s.inner.left };

    ghost faults = { λ s. s.inner.script.faults };

    fn read(&mut self, room: &mut [u8]) -> Got {
        let most = self.most.max(1).min(room.len());
        self.inner.read(&mut room[..most])
    }
}

/// Takes at most so many bytes a write.
#[derive(Drop)]
pub struct PiecedSink {
    pub inner: MemorySink,
    pub most: usize,
}

impl Sink for PiecedSink {
    ghost use Rattle.std.specs.Prelude.{Some};

    ghost holds = { λ s. Some s.inner.bytes };

    ghost faults = { λ s. s.inner.script.faults };

    fn write(&mut self, piece: &[u8]) -> Result<usize, Failed> {
        let most = self.most.max(1).min(piece.len());
        self.inner.write(&piece[..most])
    }
}
