ghost use Rattle.std.specs.Prelude.{◌≡◌, ◌++◌, ◌<◌, ◌^◌, ◌↔◌, ℕ, List, length, slice_index, Ok, Err, IfOk, IfErr, OnErr};
ghost use Rattle.ps_codec.specs.Fields.{u8_field, u32_field, u64_field, flag_field, bytes_field};
ghost use Rattle.ps_codec.specs.Found.{u8_at, u32_at, u64_at, flag_at, bytes_at};

use crate::fault::FieldError;
use std::marker::Model;

/// Reads fields from the start of some bytes without allocating. Contracts see the bytes not yet read.
#[derive(Drop)]
pub struct FieldReader<'a> {
    rest: &'a [u8],
}

impl<'a> Model for FieldReader<'a> {
    ghost use Rattle.std.specs.Prelude.{List, ℕ};

    ghost Value = { List ℕ };

    ghost view = { λ it. it.rest.now };
}

impl<'a> FieldReader<'a> {
    /// A reader over all of these bytes.
    pub fn new(input: &'a [u8]) -> FieldReader<'a>
        ensures { result ≡ input.now }
    {
        FieldReader { rest: input }
    }

    /// The number of bytes not yet read.
    pub fn left(&self) -> usize
        ensures { result ≡ length self.now }
    {
        self.rest.len()
    }

    /// Reads one byte. Fails with `Short`, and changes nothing, if and only if no byte is left.
    pub fn u8(&mut self) -> Result<u8, FieldError>
        ensures found { IfOk result (λ value. u8_at self.old ≡ Ok (value, self.new)) }
        ensures written { IfOk result (λ value. self.old ≡ u8_field value ++ self.new) }
        ensures fault { IfErr result (λ fault. u8_at self.old ≡ Err fault) }
        ensures short { (result ≡ Err FieldError.Short) ↔ (length self.old < 1) }
        ensures only { IfErr result (λ fault. fault ≡ FieldError.Short) }
        ensures err { OnErr result (self.new ≡ self.old) }
    {
        let (value, rest) = split_u8(self.rest)?;
        self.rest = rest;
        Ok(value)
    }

    /// Reads a big-endian `u32`. Fails with `Short`, and changes nothing, if and only if fewer than 4 bytes are left.
    pub fn u32(&mut self) -> Result<u32, FieldError>
        ensures found { IfOk result (λ value. u32_at self.old ≡ Ok (value, self.new)) }
        ensures written { IfOk result (λ value. self.old ≡ u32_field value ++ self.new) }
        ensures fault { IfErr result (λ fault. u32_at self.old ≡ Err fault) }
        ensures short { (result ≡ Err FieldError.Short) ↔ (length self.old < 4) }
        ensures only { IfErr result (λ fault. fault ≡ FieldError.Short) }
        ensures err { OnErr result (self.new ≡ self.old) }
    {
        let (value, rest) = split_u32(self.rest)?;
        self.rest = rest;
        Ok(value)
    }

    /// Reads a big-endian `u64`. Fails with `Short`, and changes nothing, if and only if fewer than 8 bytes are left.
    pub fn u64(&mut self) -> Result<u64, FieldError>
        ensures found { IfOk result (λ value. u64_at self.old ≡ Ok (value, self.new)) }
        ensures written { IfOk result (λ value. self.old ≡ u64_field value ++ self.new) }
        ensures fault { IfErr result (λ fault. u64_at self.old ≡ Err fault) }
        ensures short { (result ≡ Err FieldError.Short) ↔ (length self.old < 8) }
        ensures only { IfErr result (λ fault. fault ≡ FieldError.Short) }
        ensures err { OnErr result (self.new ≡ self.old) }
    {
        let (value, rest) = split_u64(self.rest)?;
        self.rest = rest;
        Ok(value)
    }

    /// Reads one byte as a flag, or as the first byte of an option. Fails with `Short` if and only if no byte is left,
    /// and with `BadTag` if and only if it is above 1. After an error the reader is unchanged.
    pub fn flag(&mut self) -> Result<bool, FieldError>
        ensures found { IfOk result (λ value. flag_at self.old ≡ Ok (value, self.new)) }
        ensures written { IfOk result (λ value. self.old ≡ flag_field value ++ self.new) }
        ensures fault { IfErr result (λ fault. flag_at self.old ≡ Err fault) }
        ensures short { (result ≡ Err FieldError.Short) ↔ (length self.old < 1) }
        ensures bad_tag { (result ≡ Err FieldError.BadTag) ↔ (1 < slice_index self.old 0) }
        ensures err { OnErr result (self.new ≡ self.old) }
    {
        let (value, rest) = split_flag(self.rest)?;
        self.rest = rest;
        Ok(value)
    }

    /// Reads a count as `u32` does, then that many bytes. Fails with `Short`, and changes nothing, if and only if fewer
    /// bytes are left.
    pub fn bytes(&mut self) -> Result<&'a [u8], FieldError>
        ensures found { IfOk result (λ value. bytes_at self.old ≡ Ok (value.now, self.new)) }
        ensures written { IfOk result (λ value. self.old ≡ bytes_field value.now ++ self.new) }
        ensures fault { IfErr result (λ fault. bytes_at self.old ≡ Err fault) }
        ensures only { IfErr result (λ fault. fault ≡ FieldError.Short) }
        ensures none { OnErr result ((value rest : List ℕ) → length value < 2 ^ 32
            → self.old ≡ bytes_field value ++ rest → ⊥) }
        ensures err { OnErr result (self.new ≡ self.old) }
    {
        let (value, rest) = split_bytes(self.rest)?;
        self.rest = rest;
        Ok(value)
    }
}

#[tactic(auto, unfolding(crate::specs::Found::u8_at))]
fn split_u8(bytes: &[u8]) -> Result<(u8, &[u8]), FieldError>
    ensures found { IfOk result (λ found. u8_at bytes.now ≡ Ok (found.0, found.1.now)) }
    ensures written { IfOk result (λ found. bytes.now ≡ u8_field found.0 ++ found.1.now) }
    ensures fault { IfErr result (λ fault. u8_at bytes.now ≡ Err fault) }
    ensures short { (result ≡ Err FieldError.Short) ↔ (length bytes.now < 1) }
    ensures only { IfErr result (λ fault. fault ≡ FieldError.Short) }
{
    match bytes {
        [] => Err(FieldError::Short),
        [value, rest @ ..] => Ok((*value, rest)),
    }
}

#[tactic(auto, unfolding(crate::specs::Found::u32_at))]
fn split_u32(bytes: &[u8]) -> Result<(u32, &[u8]), FieldError>
    ensures found { IfOk result (λ found. u32_at bytes.now ≡ Ok (found.0, found.1.now)) }
    ensures written { IfOk result (λ found. bytes.now ≡ u32_field found.0 ++ found.1.now) }
    ensures fault { IfErr result (λ fault. u32_at bytes.now ≡ Err fault) }
    ensures short { (result ≡ Err FieldError.Short) ↔ (length bytes.now < 4) }
    ensures only { IfErr result (λ fault. fault ≡ FieldError.Short) }
{
    let Some((front, rest)) = bytes.split_first_chunk::<4>() else {
        return Err(FieldError::Short);
    };
    Ok((u32::from_be_bytes(*front), rest))
}

#[tactic(auto, unfolding(crate::specs::Found::u64_at))]
fn split_u64(bytes: &[u8]) -> Result<(u64, &[u8]), FieldError>
    ensures found { IfOk result (λ found. u64_at bytes.now ≡ Ok (found.0, found.1.now)) }
    ensures written { IfOk result (λ found. bytes.now ≡ u64_field found.0 ++ found.1.now) }
    ensures fault { IfErr result (λ fault. u64_at bytes.now ≡ Err fault) }
    ensures short { (result ≡ Err FieldError.Short) ↔ (length bytes.now < 8) }
    ensures only { IfErr result (λ fault. fault ≡ FieldError.Short) }
{
    let Some((front, rest)) = bytes.split_first_chunk::<8>() else {
        return Err(FieldError::Short);
    };
    Ok((u64::from_be_bytes(*front), rest))
}

#[tactic(auto, unfolding(crate::specs::Found::flag_at))]
fn split_flag(bytes: &[u8]) -> Result<(bool, &[u8]), FieldError>
    ensures found { IfOk result (λ found. flag_at bytes.now ≡ Ok (found.0, found.1.now)) }
    ensures written { IfOk result (λ found. bytes.now ≡ flag_field found.0 ++ found.1.now) }
    ensures fault { IfErr result (λ fault. flag_at bytes.now ≡ Err fault) }
    ensures short { (result ≡ Err FieldError.Short) ↔ (length bytes.now < 1) }
    ensures bad_tag { (result ≡ Err FieldError.BadTag) ↔ (1 < slice_index bytes.now 0) }
{
    match bytes {
        [] => Err(FieldError::Short),
        [0, rest @ ..] => Ok((false, rest)),
        [1, rest @ ..] => Ok((true, rest)),
        [_, ..] => Err(FieldError::BadTag),
    }
}

#[tactic(auto, unfolding(crate::specs::Found::bytes_at))]
fn split_bytes(bytes: &[u8]) -> Result<(&[u8], &[u8]), FieldError>
    ensures found { IfOk result (λ found. bytes_at bytes.now ≡ Ok (found.0.now, found.1.now)) }
    ensures written { IfOk result (λ found. bytes.now ≡ bytes_field found.0.now ++ found.1.now) }
    ensures fault { IfErr result (λ fault. bytes_at bytes.now ≡ Err fault) }
    ensures only { IfErr result (λ fault. fault ≡ FieldError.Short) }
{
    let (count, rest) = split_u32(bytes)?;
    let count = count as usize;
    if rest.len() < count {
        return Err(FieldError::Short);
    }
    Ok(rest.split_at(count))
}
