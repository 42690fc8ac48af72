//! Connections in memory, written as texts. In a text of bytes, `|` is CRLF. In a text of reads, `^` stands between two
//! of them:
//!
//! ```text
//! PUT /v1/^~^projects/p/topics/abc HTTP/1.1|^!
//! ```
//!
//! A read of `~` finds nothing so far, and one of `!` fails. A part of `#N` is no read: it says that write `N` fails.
ghost use Rattle.std.specs.Prelude.{◌≡◌, true, IfOk};
ghost use Rattle.ps_edge.specs.MemoryNets.{is_unused};

use ps_base::{List, Octets};
use ps_edge::MemoryLink;
use ps_transcript::number;
use std::alloc::{AllocError, Global};
use std::test::Fail;

/// The bytes of a text.
pub fn bytes_of(alloc: Global, text: &str) -> Result<Vec<u8>, AllocError> {
    let mut bytes = Vec::new(alloc);
    for byte in text.as_bytes() {
        if *byte == b'|' {
            bytes.extend_from_slice(b"\r\n")?;
        } else {
            bytes.push(*byte)?;
        }
    }
    Ok(bytes)
}

/// The text of the bytes that were written to a link.
pub fn written(alloc: Global, link: &MemoryLink) -> Result<String, Fail> {
    let bytes = str::from_utf8(link.written()).map_err(|_| Fail::new("no text was written"))?;
    let mut text = String::new(alloc);
    for (place, line) in bytes.split("\r\n").enumerate() {
        if place > 0 {
            text.push('|')?;
        }
        text.push_str(line)?;
    }
    Ok(text)
}

/// A link that gives these bytes in two pieces, with a read between them that finds nothing so far.
pub fn cut_link(alloc: Global, bytes: &[u8], cut: usize) -> Result<MemoryLink, Fail> {
    let (first, second) = bytes.split_at(cut.min(bytes.len()));
    let mut reads = Reads::new(alloc);
    reads.pieces.push(Octets::from_slice(alloc, first)?)?;
    reads.pieces.push(Octets::from_slice(alloc, second)?)?;
    reads.waiting.push(2)?;
    Ok(reads.into_link(alloc))
}

/// The link of a text of reads.
pub fn link_of(alloc: Global, text: &str) -> Result<MemoryLink, Fail>
    ensures unused { IfOk result (λ link. is_unused link ≡ true) }
{
    let mut reads = Reads::new(alloc);
    for part in text.split('^') {
        reads.add(alloc, part)?;
    }
    Ok(reads.into_link(alloc))
}

/// The pieces of a link, and its faults.
#[derive(Drop)]
struct Reads {
    count: u64,
    pieces: List<Octets>,
    failing: List<u64>,
    waiting: List<u64>,
    unwritten: List<u64>,
}

impl Reads {
    fn new(alloc: Global) -> Reads {
        Reads {
            count: 0,
            pieces: List::new(alloc),
            failing: List::new(alloc),
            waiting: List::new(alloc),
            unwritten: List::new(alloc),
        }
    }

    /// Adds a part of a text of reads.
    fn add(&mut self, alloc: Global, part: &str) -> Result<(), Fail> {
        if let Some(write) = part.strip_prefix('#') {
            self.unwritten.push(number(write)?)?;
            return Ok(());
        }
        self.count = self.count.saturating_add(1);
        match part {
            "~" => self.waiting.push(self.count)?,
            "!" => self.failing.push(self.count)?,
            piece => self.pieces.push(Octets::from_vec(bytes_of(alloc, piece)?))?,
        }
        Ok(())
    }

    fn into_link(self, alloc: Global) -> MemoryLink
        ensures unused { is_unused result ≡ true }
    {
        let Reads {
            count: _,
            pieces,
            failing,
            waiting,
            unwritten,
        } = self;
        MemoryLink::new(alloc, pieces, failing, waiting, unwritten)
    }
}
