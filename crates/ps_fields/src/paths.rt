// The paths of fields, as refusals name them.
ghost use Rattle.std.specs.Prelude.{◌≡◌, ◌++◌, Some, IfOk, codes};
ghost use Rattle.ps_fields.specs.Paths.{item_path, lesser};

use ps_base::{OutOfMemory, Text};
use std::alloc::Global;

/// The path of a field of an object. What stands before the names of the object's fields is `at`: empty for the fields of
/// a body. Fails only if out of memory.
pub fn path_in(alloc: Global, at: &str, name: &str) -> Result<Text, OutOfMemory>
    ensures { IfOk result (λ path. path ≡ at.now ++ name.now) }
{
    Ok(Text::from_string(format!(in alloc; "{at}{name}")?))
}

/// What stands before the names of the fields of this field's value. Fails only if out of memory.
pub fn path_into(alloc: Global, at: &str, name: &str) -> Result<Text, OutOfMemory>
    ensures { IfOk result (λ path. path ≡ (at.now ++ name.now) ++ codes ".") }
{
    Ok(Text::from_string(format!(in alloc; "{at}{name}.")?))
}

/// The path of an item of a list, as `ackIds[0]`. Fails only if out of memory.
pub fn item_path(alloc: Global, list: &str, place: usize) -> Result<Text, OutOfMemory>
    ensures { IfOk result (λ path. path ≡ item_path list.now place) }
{
    Ok(Text::from_string(format!(in alloc; "{list}[{place}]")?))
}

/// What stands before the names of the fields of an item of a list. Fails only if out of memory.
pub fn item_into(alloc: Global, list: &str, place: usize) -> Result<Text, OutOfMemory>
    ensures { IfOk result (λ path. path ≡ item_path list.now place ++ codes ".") }
{
    Ok(Text::from_string(format!(in alloc; "{list}[{place}].")?))
}

/// The lesser of two paths in byte order, if there are two.
pub fn lesser(least: Option<Text>, path: Text) -> Text
    ensures { Some result ≡ lesser least path }
{
    match least {
        Some(least) if !path.is_below(&least) => least,
        _ => path,
    }
}
