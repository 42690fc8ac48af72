// The names that a path gives, and what a query gives a list.
ghost use Rattle.std.specs.Prelude.{◌≡◌, IfOk};
ghost use Rattle.ps_json.specs.Names as spec;

use ps_base::{OutOfMemory, Text};
use std::alloc::Global;

/// The parts of a path with their escapes read. They may be outside the grammar of names.
#[derive(Drop)]
pub struct PathNames {
    pub project: Text,
    /// Empty for a list of a project.
    pub id: Text,
}

/// The pairs of a query that lists use, each the first of its name.
#[derive(Drop)]
pub struct Query {
    pub page_size: Option<Text>,
    pub page_token: Option<Text>,
}

/// The text of a topic's name. Fails only if out of memory.
pub fn topic_name(alloc: Global, path: &PathNames) -> Result<Text, OutOfMemory>
    ensures { IfOk result (λ name. name ≡ spec.topic_name path.now) }
{
    name_at(alloc, "topics", path)
}

/// The text of a subscription's name. Fails only if out of memory.
pub fn sub_name(alloc: Global, path: &PathNames) -> Result<Text, OutOfMemory>
    ensures { IfOk result (λ name. name ≡ spec.sub_name path.now) }
{
    name_at(alloc, "subscriptions", path)
}

fn name_at(alloc: Global, kind: &str, path: &PathNames) -> Result<Text, OutOfMemory>
    ensures { IfOk result (λ name. name ≡ spec.name_at kind.now path.now) }
{
    let name = format!(in alloc; "projects/{}/{kind}/{}", path.project, path.id)?;
    Ok(Text::from_string(name))
}
