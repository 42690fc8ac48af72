// The kinds of fields: what a field's value stands for, and `None` if it is of another kind. A field that is
// absent or null has its default.
ghost use Rattle.std.specs.Prelude.{◌≡◌, true, IfOk, IfSome, map, option_map};
ghost use Rattle.std.specs.Result.{result_ok};
ghost use Rattle.base64.specs.GeneralPurpose.{decode_of};
ghost use Rattle.serde_json.specs.Find.{get_member};
ghost use Rattle.serde_json.specs.View.{view, members_view};
ghost use Rattle.ps_base.specs.Keys.{has_ascending_keys};
ghost use Rattle.ps_fields.specs.Kinds.{bytes_of, duration_value, flag_of, list_of, map_of, payload_of, text_of, texts_in, whole_of, whole_text, whole_value};

use crate::durations::milliseconds;
use crate::fields::field;
use base64::DecodeAllocError;
use base64::engine::general_purpose::{
    GeneralPurpose, STANDARD, STANDARD_NO_PAD, URL_SAFE, URL_SAFE_NO_PAD,
};
use ps_base::{Labels, List, Octets, OutOfMemory, Text};
use serde_json::{Map, Value};
use std::alloc::Global;

/// A text, empty by default.
pub fn text<'a>(fields: &'a Map<String, Value>, name: &str) -> Option<&'a str>
    ensures { option_map (λ text. text.now) result
        ≡ text_of (get_member name.now (members_view fields.now.entries)) }
{
    match field(fields, name) {
        None | Some(Value::Null) => Some(""),
        Some(Value::String(text)) => Some(text.as_str()),
        Some(_) => None,
    }
}

/// True or false, and false by default.
pub fn flag(fields: &Map<String, Value>, name: &str) -> Option<bool>
    ensures { result ≡ flag_of (get_member name.now (members_view fields.now.entries)) }
{
    match field(fields, name) {
        None | Some(Value::Null) => Some(false),
        Some(Value::Bool(flag)) => Some(*flag),
        Some(_) => None,
    }
}

/// A whole number of 64 bits with a sign, or a text of one, and 0 by default.
pub fn whole(fields: &Map<String, Value>, name: &str) -> Option<i64>
    ensures { result ≡ whole_of (get_member name.now (members_view fields.now.entries)) }
{
    match field(fields, name) {
        None | Some(Value::Null) => Some(0),
        Some(value) => whole_in(value),
    }
}

/// The whole number that a value is.
pub fn whole_in(value: &Value) -> Option<i64>
    ensures { result ≡ whole_value (view value.now) }
{
    match value {
        Value::Number(number) => number.as_i64(),
        Value::String(text) => whole_text(text.as_str()),
        _ => None,
    }
}

/// The number that is written as decimal digits with or without a minus.
pub fn whole_text(text: &str) -> Option<i64>
    ensures { result ≡ whole_text text.now }
{
    if text.starts_with('+') {
        return None;
    }
    text.parse().ok()
}

/// The milliseconds of the duration that a value is.
pub fn duration_in(value: &Value) -> Option<u64>
    ensures { result ≡ duration_value (view value.now) }
{
    match value {
        Value::String(text) => milliseconds(text.as_str()),
        _ => None,
    }
}

/// The bytes of a base64 text in the standard or the URL-safe alphabet, with its padding or with none, and no
/// bytes by default. Fails only if out of memory.
pub fn bytes(
    alloc: Global,
    fields: &Map<String, Value>,
    name: &str,
) -> Result<Option<Octets>, OutOfMemory>
    ensures { IfOk result (λ bytes. bytes
        ≡ bytes_of (get_member name.now (members_view fields.now.entries))) }
{
    match field(fields, name) {
        None | Some(Value::Null) => Ok(Some(Octets::from_vec(Vec::new(alloc)))),
        Some(Value::String(text)) => payload(alloc, text.as_bytes()),
        Some(_) => Ok(None),
    }
}

fn payload(alloc: Global, text: &[u8]) -> Result<Option<Octets>, OutOfMemory>
    ensures { IfOk result (λ bytes. bytes ≡ payload_of text.now) }
{
    if let Some(bytes) = decoded(alloc, &STANDARD, text)? {
        return Ok(Some(bytes));
    }
    if let Some(bytes) = decoded(alloc, &STANDARD_NO_PAD, text)? {
        return Ok(Some(bytes));
    }
    if let Some(bytes) = decoded(alloc, &URL_SAFE, text)? {
        return Ok(Some(bytes));
    }
    decoded(alloc, &URL_SAFE_NO_PAD, text)
}

fn decoded(
    alloc: Global,
    engine: &GeneralPurpose,
    text: &[u8],
) -> Result<Option<Octets>, OutOfMemory>
    ensures { IfOk result (λ bytes. bytes ≡ result_ok (decode_of engine.now text.now)) }
{
    match engine.decode(alloc, text) {
        Ok(bytes) => Ok(Some(Octets::from_vec(bytes))),
        Err(DecodeAllocError::DecodeError(_)) => Ok(None),
        Err(DecodeAllocError::OutOfMemory) => Err(OutOfMemory),
    }
}

/// The texts of an object by their keys, and none by default. Fails only if out of memory.
pub fn map(
    alloc: Global,
    fields: &Map<String, Value>,
    name: &str,
) -> Result<Option<Labels>, OutOfMemory>
    ensures { IfOk result (λ labels. labels
        ≡ map_of (get_member name.now (members_view fields.now.entries))) }
{
    match field(fields, name) {
        None | Some(Value::Null) => Ok(Some(Labels::new(alloc))),
        Some(Value::Object(texts)) => labels(alloc, texts),
        Some(_) => Ok(None),
    }
}

fn labels(alloc: Global, texts: &Map<String, Value>) -> Result<Option<Labels>, OutOfMemory>
    ensures { IfOk result (λ labels. labels ≡ texts_in (members_view texts.now.entries)) }
{
    match pairs(alloc, texts)? {
        Some(pairs) => Ok(Labels::of(pairs)),
        None => Ok(None),
    }
}

/// The pairs of key and text, in byte order of the keys.
fn pairs(
    alloc: Global,
    texts: &Map<String, Value>,
) -> Result<Option<List<(Text, Text)>>, OutOfMemory>
    ensures value { IfOk result (λ pairs. pairs ≡ texts_in (members_view texts.now.entries)) }
    ensures ascending { IfOk result (λ pairs. IfSome pairs
        (λ pairs. has_ascending_keys pairs ≡ true)) }
{
    let mut pairs = List::new(alloc);
    for (key, value) in texts.iter() {
        let Value::String(text) = value else {
            return Ok(None);
        };
        let key = Text::from_str(alloc, key.as_str())?;
        pairs.push((key, Text::from_str(alloc, text.as_str())?))?;
    }
    Ok(Some(pairs))
}

/// The items of a list, and none by default.
pub fn list<'a>(fields: &'a Map<String, Value>, name: &str) -> Option<&'a [Value]>
    ensures { option_map (λ items. map view items.now) result
        ≡ list_of (get_member name.now (members_view fields.now.entries)) }
{
    match field(fields, name) {
        None | Some(Value::Null) => Some(&[]),
        Some(Value::Array(items)) => Some(items.as_slice()),
        Some(_) => None,
    }
}
