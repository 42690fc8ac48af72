use super::*;
use ps_base::{Labels, List, Text};
use ps_message::Attributes;
use std::alloc::Global;
use std::process::Abort;
use std::test::Fail;

/// What the reader says of a text: nothing of a filter.
fn told(alloc: Global, text: &str) -> Result<String, Fail> {
    match Filter::read(alloc, text) {
        Ok(_) => Ok(String::new(alloc)),
        Err(FilterError::TooLong) => Ok(String::from_str(alloc, "too long")?),
        Err(FilterError::Mixed { at }) => Ok(format!(in alloc; "mixed at {at}")?),
        Err(FilterError::Syntax { at }) => Ok(format!(in alloc; "syntax at {at}")?),
        Err(FilterError::OutOfMemory) => Ok(String::from_str(alloc, "no memory")?),
    }
}

fn expect(rt: &impl Abort, alloc: Global, text: &str, want: &str) -> Result<(), Fail> {
    let told = told(alloc, text)?;
    assert_eq!(rt; told.as_str(), want, "{text}");
    Ok(())
}

#[test]
fn problems_are_told_by_their_place(rt: HostRuntime) -> Result<(), Fail> {
    let alloc = rt.alloc();
    let table = [
        (
            "attributes:a AND attributes:b OR attributes:c",
            "mixed at 30",
        ),
        (
            "attributes:a OR attributes:b AND attributes:c",
            "mixed at 29",
        ),
        (
            "(attributes:a AND attributes:b OR attributes:c)",
            "mixed at 31",
        ),
        ("(attributes:a OR attributes:b) AND attributes:c", ""),
        ("attributes:a AND attributes:b OR", "mixed at 30"),
        ("attributes:a AND OR attributes:b", "syntax at 17"),
        ("", "syntax at 0"),
        ("attributes:", "syntax at 11"),
        ("attributes:  ", "syntax at 13"),
        ("attributes:a AND", "syntax at 16"),
        ("attributes:a attributes:b", "syntax at 13"),
        ("attributes.a = x", "syntax at 15"),
        ("attributes.a = \"x", "syntax at 15"),
        ("attributes.a = \"x\\n\"", "syntax at 15"),
        ("attributes.a ! \"x\"", "syntax at 13"),
        ("attributes:\u{e9}", "syntax at 11"),
        ("hasPrefix(attributes.a)", "syntax at 22"),
        ("hasPrefix(attributes.a, \"x\"", "syntax at 27"),
        ("(attributes:a", "syntax at 13"),
        ("attributes:a)", "syntax at 12"),
        ("NOT-attributes:a", "syntax at 0"),
        ("NOT - NOT attributes:a", ""),
        ("a = \"x\"", "syntax at 0"),
    ];
    for (text, want) in table {
        expect(&rt, alloc, text, want)?;
    }
    Ok(())
}

/// A comparison with a value of so many letters.
fn long_filter(alloc: Global, letters: usize) -> Result<String, Fail> {
    let mut text = String::from_str(alloc, "attributes.a = \"")?;
    for _ in 0..letters {
        text.push('x')?;
    }
    text.push('"')?;
    Ok(text)
}

#[test]
fn a_filter_has_at_most_256_bytes(rt: HostRuntime) -> Result<(), Fail> {
    let alloc = rt.alloc();
    expect(&rt, alloc, long_filter(alloc, 239)?.as_str(), "")?;
    expect(&rt, alloc, long_filter(alloc, 240)?.as_str(), "too long")
}

/// As deep as 256 bytes can be.
#[test]
fn parentheses_may_nest(rt: HostRuntime) -> Result<(), Fail> {
    let alloc = rt.alloc();
    let mut text = String::new(alloc);
    for _ in 0..122 {
        text.push('(')?;
    }
    text.push_str("attributes:a")?;
    for _ in 0..122 {
        text.push(')')?;
    }
    expect(&rt, alloc, text.as_str(), "")?;
    text.push(')')?;
    text.push_str("((((((((((")?;
    expect(&rt, alloc, text.as_str(), "too long")
}

/// The one attribute with this key and value.
fn one(alloc: Global, key: &str, value: &str) -> Result<Attributes, Fail> {
    let mut pairs = List::new(alloc);
    pairs.push((Text::from_str(alloc, key)?, Text::from_str(alloc, value)?))?;
    Ok(Labels::of(pairs).ok_or("one key ascends")?)
}

fn matches(alloc: Global, filter: &str, key: &str, value: &str) -> Result<bool, Fail> {
    let attributes = one(alloc, key, value)?;
    match Filter::read(alloc, filter) {
        Ok(filter) => Ok(filter.matches(&attributes)),
        Err(_) => Ok(false),
    }
}

#[test]
fn filters_let_messages_through(rt: HostRuntime) -> Result<(), Fail> {
    let alloc = rt.alloc();
    let table = [
        ("attributes:a", "b", "1", false),
        ("attributes:b", "b", "1", true),
        ("attributes.a != \"x\"", "b", "1", true),
        ("attributes.b != \"1\"", "b", "1", false),
        ("hasPrefix(attributes.a, \"\")", "b", "1", false),
        ("hasPrefix(attributes.a, \"\")", "a", "", true),
        ("hasPrefix(attributes.a, \"xy\")", "a", "xyz", true),
        ("hasPrefix(attributes.a, \"xy\")", "a", "x", false),
        ("attributes.b = \"1\"", "b", "12", false),
        ("NOT attributes:a", "b", "1", true),
        ("-attributes:b", "b", "1", false),
        ("attributes:b AND attributes:a", "b", "1", false),
        ("attributes:a OR attributes:b", "b", "1", true),
        (
            "attributes:b AND (attributes:a OR attributes:b)",
            "b",
            "1",
            true,
        ),
        ("attributes:\"a b\"", "a b", "", true),
        ("attributes:AND", "AND", "1", true),
        ("attributes.a = \"x\\\"y\\\\\"", "a", "x\"y\\", true),
        ("attributes.a = \"\u{e9}\"", "a", "\u{e9}", true),
        (" attributes\t. b\r\n=  \"1\" ", "b", "1", true),
    ];
    for (filter, key, value, want) in table {
        assert_eq!(rt; matches(alloc, filter, key, value)?, want, "{filter}");
    }
    Ok(())
}
