// The path of a target with its parts, and its query.
ghost use Rattle.std.specs.Prelude.{◌≡◌, IfOk, map};
ghost use Rattle.ps_rest.specs.Targets as spec;

use percent_encoding::{DecodeError, percent_decode};
use ps_base::{List, OutOfMemory, Text};
use std::alloc::Global;

/// What stands before the first `?`.
pub fn path_of(target: &str) -> &str
    ensures { result.now ≡ spec.path_of target.now }
{
    match target.split_once('?') {
        Some((path, _)) => path,
        None => target,
    }
}

/// What stands behind the first `?`, and an empty text if there is none.
pub fn query_of(target: &str) -> &str
    ensures { result.now ≡ spec.query_of target.now }
{
    match target.split_once('?') {
        Some((_, query)) => query,
        None => "",
    }
}

/// The parts of a path with their escapes read. None if one isn't UTF-8 then.
pub fn decoded(alloc: Global, parts: &[&str]) -> Result<Option<List<Text>>, OutOfMemory>
    ensures { IfOk result (λ texts. texts ≡ spec.decoded (map (λ part. part.now) parts.now)) }
{
    let mut texts = List::new(alloc);
    for part in parts {
        let Some(text) = decoded_part(alloc, part)? else {
            return Ok(None);
        };
        texts.push(text)?;
    }
    Ok(Some(texts))
}

fn decoded_part(alloc: Global, part: &str) -> Result<Option<Text>, OutOfMemory>
    ensures { IfOk result (λ text. text ≡ spec.decoded_part part.now) }
{
    match percent_decode(part.as_bytes()).decode_utf8(alloc) {
        Ok(text) => Ok(Some(Text::from_string(text.into_owned(alloc)?))),
        Err(DecodeError::OutOfMemory) => Err(OutOfMemory),
        Err(DecodeError::Utf8(_)) => Ok(None),
    }
}
