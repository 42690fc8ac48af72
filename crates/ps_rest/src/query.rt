// The pairs of a query that lists use.
ghost use Rattle.std.specs.Prelude.{◌≡◌, IfOk};
ghost use Rattle.ps_rest.specs.Targets.{value_of};
ghost use Rattle.ps_rest.specs.Calls.{query_read};

use form_urlencoded::parse;
use ps_base::{OutOfMemory, Text};
use ps_json::Query;
use std::alloc::Global;

/// The pairs `pageSize` and `pageToken`, the first of each name.
pub fn read_query(alloc: Global, query: &str) -> Result<Query, OutOfMemory>
    ensures { IfOk result (λ pairs. pairs ≡ query_read query.now) }
{
    let page_size = value_of(alloc, query, "pageSize")?;
    let page_token = value_of(alloc, query, "pageToken")?;
    Ok(Query {
        page_size,
        page_token,
    })
}

/// The value of the first pair of this name.
fn value_of(alloc: Global, query: &str, name: &str) -> Result<Option<Text>, OutOfMemory>
    ensures { IfOk result (λ value. value ≡ value_of name.now query.now) }
{
    for pair in parse(alloc, query.as_bytes()) {
        let (key, value) = pair?;
        if key.as_str() == name {
            return Ok(Some(Text::from_string(value.into_owned(alloc)?)));
        }
    }
    Ok(None)
}
