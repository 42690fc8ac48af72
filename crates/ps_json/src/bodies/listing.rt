// Lists, page by page.
ghost use Rattle.std.specs.Prelude.{◌≡◌, IfOk};
ghost use Rattle.ps_json.specs.Checks.{Reads};
ghost use Rattle.ps_json.specs.Listing as spec;

use crate::bodies::naming::topic_in;
use crate::named::{PathNames, Query};
use crate::read_error::{ReadError, refused};
use ps_base::{Duplicate, OutOfMemory, Reason, Text};
use ps_config::MOST_OF_PAGE;
use ps_fields::whole_text;
use ps_model::{Command, Paging};
use ps_names::ProjectName;
use std::alloc::Global;

/// The command that lists the topics of a project, or the first check that is broken.
pub fn list_topics(alloc: Global, path: &PathNames, query: &Query) -> Result<Command, ReadError>
    ensures { Reads result (spec.topics_asked path.now query.now) }
{
    let project = project_in(alloc, path)?;
    let paging = paging(alloc, query)?;
    Ok(Command::ListTopics { project, paging })
}

/// The command that lists the subscriptions of a project, or the first check that is broken.
pub fn list_subscriptions(
    alloc: Global,
    path: &PathNames,
    query: &Query,
) -> Result<Command, ReadError>
    ensures { Reads result (spec.subscriptions_asked path.now query.now) }
{
    let project = project_in(alloc, path)?;
    let paging = paging(alloc, query)?;
    Ok(Command::ListSubscriptions { project, paging })
}

/// The command that lists the subscriptions of a topic, or the first check that is broken.
pub fn list_topic_subscriptions(
    alloc: Global,
    path: &PathNames,
    query: &Query,
) -> Result<Command, ReadError>
    ensures { Reads result (spec.topic_subscriptions_asked path.now query.now) }
{
    let topic = topic_in(alloc, path)?;
    let paging = paging(alloc, query)?;
    Ok(Command::ListTopicSubscriptions { topic, paging })
}

fn project_in(alloc: Global, path: &PathNames) -> Result<ProjectName, ReadError>
    ensures { Reads result (spec.project_in path.now) }
{
    match ProjectName::read(alloc, path.project.as_str())? {
        Some(project) => Ok(project),
        None => Err(refused(Reason::Name)),
    }
}

fn paging(alloc: Global, query: &Query) -> Result<Paging, ReadError>
    ensures { Reads result (spec.paging_in query.now) }
{
    let Some(size) = page_size(&query.page_size) else {
        return Err(refused(Reason::PageSize));
    };
    let after = page_token(alloc, &query.page_token)?;
    Ok(Paging { size, after })
}

/// The size of a page, and 0 if the query has none. None if its text is no whole number, or one below 0.
fn page_size(text: &Option<Text>) -> Option<u32>
    ensures { result ≡ spec.page_size text.now }
{
    match text {
        Some(text) => size_of(whole_text(text.as_str())?),
        None => Some(0),
    }
}

/// The number, or the most items of a page if it is more.
fn size_of(size: i64) -> Option<u32>
    ensures { result ≡ spec.size_of size }
{
    if size < 0 {
        return None;
    }
    Some(
        u32::try_from(size)
            .unwrap_or(MOST_OF_PAGE)
            .min(MOST_OF_PAGE),
    )
}

/// The token, and an empty text if the query has none.
fn page_token(alloc: Global, text: &Option<Text>) -> Result<Text, OutOfMemory>
    ensures { IfOk result (λ token. token ≡ spec.page_token text.now) }
{
    match text {
        Some(text) => text.copy(alloc),
        None => Text::from_str(alloc, ""),
    }
}
