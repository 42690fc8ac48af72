ghost use Rattle.std.specs.Prelude.{◌≡◌, IfOk, map, unwrap_or, slice_get, []};
ghost use Rattle.std.specs.List.{list_all};
ghost use Rattle.std.specs.Char.{is_ascii_lowercase, is_ascii_alphabetic};
ghost use Rattle.ps_names.specs.Parts.{is_parts_of};
ghost use Rattle.ps_names.specs.Names.{parts_of, part, starts_with_byte, is_project, is_id, is_project_byte, is_id_byte};

use ps_base::OutOfMemory;
use std::alloc::Global;

/// The parts of a text between its slashes.
pub fn parts_of<'a>(alloc: Global, text: &'a str) -> Result<Vec<&'a str>, OutOfMemory>
    ensures { IfOk result (λ parts. map (λ part. part.now) parts.items ≡ parts_of text.now) }
{
    Ok(text.split('/').collect(alloc)?)
}

/// One of the parts of a text between its slashes, from 0. Empty where there are fewer.
pub(crate) fn part(text: &str, place: usize) -> &str
    ensures { result.now ≡ part place text.now }
{
    text.split('/').nth(place).unwrap_or("")
}

/// Whether these are `projects`, a project, this kind of resource and an id.
pub(crate) fn is_parts_of(kind: &str, parts: &[&str]) -> bool
    ensures { result ≡ is_parts_of kind.now (map (λ part. part.now) parts.now) }
{
    match parts {
        [projects, project, named, id] => {
            *projects == "projects" && is_project(project) && *named == kind && is_id(id)
        }
        _ => false,
    }
}

pub(crate) fn is_project(part: &str) -> bool
    ensures { result ≡ is_project part.now }
{
    let bytes = part.as_bytes();
    starts_in_lower_case(bytes) && bytes.len() <= 63 && has_project_bytes(bytes)
}

fn starts_in_lower_case(bytes: &[u8]) -> bool
    ensures { result ≡ starts_with_byte is_ascii_lowercase bytes.now }
{
    match bytes {
        [first, ..] => first.is_ascii_lowercase(),
        [] => false,
    }
}

fn has_project_bytes(bytes: &[u8]) -> bool
    ensures { result ≡ list_all is_project_byte bytes.now }
{
    bytes.iter().all(|b| is_project_byte(*b))
}

fn is_project_byte(b: u8) -> bool
    ensures { result ≡ is_project_byte b }
{
    b.is_ascii_lowercase() || b.is_ascii_digit() || b == b'-' || b == b':' || b == b'.'
}

fn is_id(part: &str) -> bool
    ensures { result ≡ is_id part.now }
{
    let bytes = part.as_bytes();
    starts_with_letter(bytes)
        && 3 <= bytes.len()
        && bytes.len() <= 255
        && has_id_bytes(bytes)
        && !bytes.starts_with(b"goog")
}

fn starts_with_letter(bytes: &[u8]) -> bool
    ensures { result ≡ starts_with_byte is_ascii_alphabetic bytes.now }
{
    match bytes {
        [first, ..] => first.is_ascii_alphabetic(),
        [] => false,
    }
}

fn has_id_bytes(bytes: &[u8]) -> bool
    ensures { result ≡ list_all is_id_byte bytes.now }
{
    bytes.iter().all(|b| is_id_byte(*b))
}

fn is_id_byte(b: u8) -> bool
    ensures { result ≡ is_id_byte b }
{
    b.is_ascii_alphanumeric() || matches!(b, b'-' | b'_' | b'.' | b'~' | b'+' | b'%')
}
