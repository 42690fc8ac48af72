// The mask of an update: the names of the settings that it changes, joined by commas.
ghost use Rattle.std.specs.Prelude.{◌≡◌, IfOk, map};
ghost use Rattle.ps_json.specs.Masks as spec;

use ps_base::OutOfMemory;
use ps_config::Mask;
use ps_fields::Object;
use std::alloc::Global;

/// The names between the commas of a mask.
pub fn names_in<'a>(alloc: Global, mask: &'a str) -> Result<Vec<&'a str>, OutOfMemory>
    ensures { IfOk result (λ names. map (λ name. name.now) names.items ≡ spec.names_in mask.now) }
{
    Ok(mask.split(',').collect(alloc)?)
}

/// The mask of these names, if an update can change each of them.
pub fn mask_of(object: Object, names: &[&str]) -> Option<Mask>
    ensures { result ≡ spec.mask_of object (map (λ name. name.now) names.now) }
{
    let mut bits = 0;
    for name in names {
        bits |= bit(object, name)?;
    }
    Some(Mask(bits))
}

fn bit(object: Object, name: &str) -> Option<u32>
    ensures { result ≡ spec.bit_of name.now (spec.bits object) }
{
    match object {
        Object::Topic => topic_bit(name),
        Object::Subscription => subscription_bit(name),
        _ => None,
    }
}

fn topic_bit(name: &str) -> Option<u32>
    ensures { result ≡ spec.bit_of name.now spec.topic_bits }
{
    match name {
        "labels" => Some(1),
        "messageRetentionDuration" => Some(2),
        _ => None,
    }
}

fn subscription_bit(name: &str) -> Option<u32>
    ensures { result ≡ spec.bit_of name.now spec.subscription_bits }
{
    match name {
        "ackDeadlineSeconds" => Some(1),
        "retainAckedMessages" => Some(2),
        "messageRetentionDuration" => Some(4),
        "labels" => Some(8),
        "expirationPolicy" => Some(16),
        "deadLetterPolicy" => Some(32),
        "retryPolicy" => Some(64),
        "enableExactlyOnceDelivery" => Some(128),
        "pushConfig" => Some(256),
        _ => None,
    }
}
