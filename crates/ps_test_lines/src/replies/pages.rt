// Pages of lists.
use super::resources::topic_shown;
use super::words::text;
use super::{expect_each, line_of};
use ps_base::{List, Octets, OutOfMemory, Text};
use ps_model::{PageItems, Reply};
use std::alloc::Global;
use std::test::Fail;

fn page_of(alloc: Global, items: PageItems, next: Option<Text>) -> Result<Octets, OutOfMemory> {
    line_of(alloc, Reply::Page { items, next })
}

/// The token of the next page, or `-` for none.
fn token(alloc: Global, word: &str) -> Result<Option<Text>, OutOfMemory> {
    if word == "-" {
        Ok(None)
    } else {
        Ok(Some(text(alloc, word)?))
    }
}

fn topics(alloc: Global, names: &str) -> Result<PageItems, OutOfMemory> {
    let mut topics = List::new(alloc);
    for name in names.split_whitespace() {
        topics.push(topic_shown(alloc, name, None)?)?;
    }
    Ok(PageItems::Topics(topics))
}

fn names(alloc: Global, words: &str) -> Result<List<Text>, OutOfMemory> {
    let mut names = List::new(alloc);
    for name in words.split_whitespace() {
        names.push(text(alloc, name)?)?;
    }
    Ok(names)
}

/// The token of the next page, what kind of items, and their names.
pub fn page(alloc: Global, words: &str) -> Result<Octets, Fail> {
    let (next, rest) = words.split_once(' ').ok_or("no kind of items")?;
    let (items, rest) = rest.split_once(' ').unwrap_or((rest, ""));
    let next = token(alloc, next)?;
    match items {
        "topics" => Ok(page_of(alloc, topics(alloc, rest)?, next)?),
        "subscriptions" => Ok(page_of(
            alloc,
            PageItems::SubscriptionNames(names(alloc, rest)?),
            next,
        )?),
        "snapshots" => Ok(page_of(alloc, PageItems::Snapshots(List::new(alloc)), next)?),
        _ => Err(Fail::new("no page")),
    }
}

const PAGES: &str = r#"
> Page projects/p/topics/bbb topics projects/p/topics/aaa projects/p/topics/bbb
< {"body":{"nextPageToken":"projects/p/topics/bbb","topics":[{"name":"projects/p/topics/aaa"},{"name":"projects/p/topics/bbb"}]},"code":200}
> Page - subscriptions projects/p/subscriptions/sub
< {"body":{"subscriptions":["projects/p/subscriptions/sub"]},"code":200}
> Page - snapshots
< {"body":{},"code":200}
"#;

#[test]
fn pages_are_told(rt: HostRuntime) -> Result<(), Fail> {
    expect_each(&rt, rt.alloc(), PAGES)
}
