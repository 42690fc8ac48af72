use super::*;
use ps_base::{Duplicate, Labels, List, Octets, Text};
use std::alloc::Global;
use std::test::Fail;

/// A message of so many bytes of payload, attributes, bytes in the first attribute's key and value, and bytes
/// of ordering key.
#[derive(Clone, Copy)]
struct Shape(usize, usize, usize, usize, usize);

fn text(alloc: Global, len: usize) -> Result<Text, Fail> {
    let mut text = String::new(alloc);
    for _ in 0..len {
        text.push('a')?;
    }
    Ok(Text::from_string(text))
}

fn attributes(alloc: Global, count: usize, key: usize, value: usize) -> Result<Attributes, Fail> {
    let mut pairs = List::new(alloc);
    if count > 0 {
        pairs.push((text(alloc, key)?, text(alloc, value)?))?;
    }
    for n in 1..count {
        let name = format!(in alloc; "b{n:03}")?;
        pairs.push((Text::from_string(name), text(alloc, 0)?))?;
    }
    Ok(Labels::of(pairs).ok_or("the keys ascend")?)
}

fn message(alloc: Global, shape: &Shape) -> Result<Message, Fail> {
    Ok(Message {
        payload: Octets::from_vec(vec![in alloc; 0u8; shape.0]?),
        attributes: attributes(alloc, shape.1, shape.2, shape.3)?,
        key: text(alloc, shape.4)?,
    })
}

fn told(alloc: Global, messages: &[Message]) -> Result<Text, Fail> {
    match check_publish(messages) {
        Ok(()) => Ok(Text::from_str(alloc, "")?),
        Err(fault) => Ok(fault.reason.text(alloc)?),
    }
}

#[test]
fn one_message_has_limits(rt: HostRuntime) -> Result<(), Fail> {
    let alloc = rt.alloc();
    let table = [
        (Shape(0, 0, 0, 0, 0), "messages[0]: empty"),
        (Shape(0, 0, 0, 0, 1), "messages[0]: empty"),
        (Shape(1, 0, 0, 0, 0), ""),
        (Shape(0, 1, 1, 0, 0), ""),
        (Shape(0, 100, 1, 0, 0), ""),
        (Shape(0, 101, 1, 0, 0), "messages[0]: attributes"),
        (Shape(0, 101, 0, 0, 0), "messages[0]: attributes"),
        (Shape(1, 1, 0, 0, 0), "messages[0]: attribute key"),
        (Shape(1, 1, 256, 0, 0), ""),
        (Shape(1, 1, 257, 0, 0), "messages[0]: attribute key"),
        (Shape(1, 1, 1, 1024, 0), ""),
        (Shape(1, 1, 1, 1025, 0), "messages[0]: attribute value"),
        (Shape(1, 0, 0, 0, 1024), ""),
        (Shape(1, 0, 0, 0, 1025), "messages[0]: ordering key"),
        (Shape(10_000_000, 0, 0, 0, 0), ""),
        (Shape(10_000_001, 0, 0, 0, 0), "request size"),
        (Shape(9_998_998, 1, 1, 1, 1000), ""),
        (Shape(9_998_999, 1, 1, 1, 1000), "request size"),
    ];
    for (shape, want) in &table {
        let messages = vec![in alloc; message(alloc, shape)?]?;
        assert_eq!(rt; told(alloc, messages.as_slice())?.as_str(), *want);
    }
    Ok(())
}

#[test]
fn messages_are_counted(rt: HostRuntime) -> Result<(), Fail> {
    let alloc = rt.alloc();
    let mut messages = Vec::new(alloc);
    assert_eq!(rt; told(alloc, messages.as_slice())?.as_str(), "messages");
    for _ in 0..1000 {
        messages.push(message(alloc, &Shape(1, 0, 0, 0, 0))?)?;
    }
    assert_eq!(rt; told(alloc, messages.as_slice())?.as_str(), "");
    messages.push(message(alloc, &Shape(0, 0, 0, 0, 0))?)?;
    assert_eq!(rt; told(alloc, messages.as_slice())?.as_str(), "messages");
    Ok(())
}

#[test]
fn the_first_fault_has_a_place(rt: HostRuntime) -> Result<(), Fail> {
    let alloc = rt.alloc();
    let first = message(alloc, &Shape(10_000_001, 1, 3, 4, 5))?;
    assert_eq!(rt; first.size(), 10_000_013);
    assert_eq!(rt; first.copy(alloc)?.size(), 10_000_013);
    let late = message(alloc, &Shape(1, 0, 0, 0, 1025))?;
    let empty = message(alloc, &Shape(0, 0, 0, 0, 0))?;
    let messages = vec![in alloc; first, late, empty]?;
    match check_publish(messages.as_slice()) {
        Ok(()) => assert!(rt; false),
        Err(fault) => {
            assert_eq!(rt; fault.place, Some(1));
            assert_eq!(rt;
                fault.reason.text(alloc)?.as_str(),
                "messages[1]: ordering key"
            );
        }
    }
    match check_publish(&messages[..1]) {
        Ok(()) => assert!(rt; false),
        Err(fault) => assert_eq!(rt; fault.place, None),
    }
    Ok(())
}
