// A page of a list.
ghost use Rattle.std.specs.Prelude.{◌≡◌, IfOk, option_map};
ghost use Rattle.serde_json.specs.Data.{string};
ghost use Rattle.serde_json.specs.View.{view};
ghost use Rattle.ps_json.specs.Replies.{items_field, page_data};

use crate::print::fields::{filled_list, put_field};
use crate::print::{Shown, values};
use ps_base::{OutOfMemory, Text};
use ps_model::PageItems;
use serde_json::{Map, Value};
use std::alloc::Global;

/// The body that shows a page.
pub fn page(alloc: Global, items: &PageItems, next: &Option<Text>) -> Result<Value, OutOfMemory>
    ensures { IfOk result (λ value. view value ≡ page_data items.now next.now) }
{
    let mut fields = Map::new(alloc);
    put_field(&mut fields, alloc, list_name(items), list(alloc, items)?)?;
    put_field(&mut fields, alloc, "nextPageToken", token(alloc, next)?)?;
    Ok(Value::Object(fields))
}

fn list_name(items: &PageItems) -> &'static str
    ensures { result.now ≡ (items_field items.now).0 }
{
    match items {
        PageItems::Topics(_) => "topics",
        PageItems::Subscriptions(_) | PageItems::SubscriptionNames(_) => "subscriptions",
        PageItems::Snapshots(_) | PageItems::SnapshotNames(_) => "snapshots",
    }
}

fn list(alloc: Global, items: &PageItems) -> Result<Option<Value>, OutOfMemory>
    ensures { IfOk result (λ list. option_map view list ≡ (items_field items.now).1) }
{
    match items {
        PageItems::Topics(topics) => Ok(filled_list(values(alloc, topics.as_slice())?)),
        PageItems::Subscriptions(subs) => Ok(filled_list(values(alloc, subs.as_slice())?)),
        PageItems::Snapshots(snaps) => Ok(filled_list(values(alloc, snaps.as_slice())?)),
        PageItems::SubscriptionNames(names) | PageItems::SnapshotNames(names) => {
            Ok(filled_list(values(alloc, names.as_slice())?))
        }
    }
}

fn token(alloc: Global, next: &Option<Text>) -> Result<Option<Value>, OutOfMemory>
    ensures { IfOk result (λ token. option_map view token ≡ option_map string next.now) }
{
    match next {
        Some(name) => Ok(Some(name.to_value(alloc)?)),
        None => Ok(None),
    }
}
