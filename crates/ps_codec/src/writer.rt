ghost use Rattle.std.specs.Prelude.{◌≡◌, ◌++◌, ◌<◌, ◌^◌, [], length, OnOk, OnErr};
ghost use Rattle.ps_codec.specs.Fields.{u8_field, u32_field, u64_field, flag_field, bytes_field};

use ps_base::{Octets, OutOfMemory};
use std::alloc::Global;
use std::marker::Model;

/// Writes fields one after the other. Contracts see the bytes written so far.
#[derive(Drop)]
pub struct FieldWriter {
    written: Vec<u8>,
}

impl Model for FieldWriter {
    ghost use Rattle.std.specs.Prelude.{List, ℕ};

    ghost Value = { List ℕ };

    ghost view = { λ it. it.written.items };
}

impl FieldWriter {
    /// A writer with nothing written yet. Allocates nothing.
    pub fn new(alloc: Global) -> FieldWriter
        ensures { result ≡ [] }
    {
        FieldWriter {
            written: Vec::new(alloc),
        }
    }

    /// Appends one byte. If out of memory, the writer stays as it was.
    pub fn u8(&mut self, value: u8) -> Result<(), OutOfMemory>
        ensures ok { OnOk result (self.new ≡ self.old ++ u8_field value) }
        ensures err { OnErr result (self.new ≡ self.old) }
    {
        self.written.push(value)?;
        Ok(())
    }

    /// Appends a big-endian `u32`. If out of memory, the writer stays as it was.
    #[tactic(auto, unfolding(crate::specs::Fields::u32_field))]
    pub fn u32(&mut self, value: u32) -> Result<(), OutOfMemory>
        ensures ok { OnOk result (self.new ≡ self.old ++ u32_field value) }
        ensures err { OnErr result (self.new ≡ self.old) }
    {
        self.written.extend_from_slice(&value.to_be_bytes())?;
        Ok(())
    }

    /// Appends a big-endian `u64`. If out of memory, the writer stays as it was.
    #[tactic(auto, unfolding(crate::specs::Fields::u64_field))]
    pub fn u64(&mut self, value: u64) -> Result<(), OutOfMemory>
        ensures ok { OnOk result (self.new ≡ self.old ++ u64_field value) }
        ensures err { OnErr result (self.new ≡ self.old) }
    {
        self.written.extend_from_slice(&value.to_be_bytes())?;
        Ok(())
    }

    /// Appends the byte 1 for true and 0 for false. If out of memory, the writer stays as it was.
    pub fn flag(&mut self, value: bool) -> Result<(), OutOfMemory>
        ensures ok { OnOk result (self.new ≡ self.old ++ flag_field value) }
        ensures err { OnErr result (self.new ≡ self.old) }
    {
        self.u8(if value { 1 } else { 0 })
    }

    /// Appends the number of bytes as `u32` does, then the bytes. If out of memory, the writer stays as it was.
    pub fn bytes(&mut self, value: &[u8]) -> Result<(), OutOfMemory>
        requires { length value.now < 2 ^ 32 }
        ensures ok { OnOk result (self.new ≡ self.old ++ bytes_field value.now) }
        ensures err { OnErr result (self.new ≡ self.old) }
    {
        let start = self.written.len();
        self.u32(value.len() as u32)?;
        if self.written.extend_from_slice(value).is_err() {
            self.written.truncate(start);
            return Err(OutOfMemory);
        }
        Ok(())
    }

    /// The bytes written, in the same memory.
    pub fn finish(self) -> Octets
        ensures { result ≡ self }
    {
        let FieldWriter { written } = self;
        Octets::from_vec(written)
    }
}
