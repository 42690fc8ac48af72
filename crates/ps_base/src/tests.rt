use super::*;
use std::alloc::Global;
use std::test::Fail;

fn text(alloc: Global, text: &str) -> Result<Text, Fail> {
    Ok(Text::from_str(alloc, text)?)
}

/// Pairs with these keys and the value `v`, in this order.
fn pairs(alloc: Global, keys: &[&str]) -> Result<List<(Text, Text)>, Fail> {
    let mut pairs = List::new(alloc);
    for key in keys {
        pairs.push((text(alloc, key)?, text(alloc, "v")?))?;
    }
    Ok(pairs)
}

#[test]
fn refusals_are_told(rt: HostRuntime) -> Result<(), Fail> {
    let alloc = rt.alloc();
    let name = Text::from_str(alloc, "projects/p/topics/abc")?;
    let taken = Refusal::AlreadyExists(name.copy(alloc)?);
    assert_eq!(rt; taken.code(), 409);
    assert_eq!(rt; taken.status(), "ALREADY_EXISTS");
    assert_eq!(rt; taken.message(alloc)?.as_str(), "projects/p/topics/abc");
    let shape = Refusal::InvalidArgument(Reason::Shape(Text::from_str(alloc, "name")?));
    assert_eq!(rt; shape.code(), 400);
    assert_eq!(rt; shape.message(alloc)?.as_str(), "shape: name");
    assert_eq!(rt; Refusal::Exhausted.message(alloc)?.as_str(), "entries");
    Ok(())
}

#[test]
fn values_are_copied_and_moments_end(rt: HostRuntime) -> Result<(), Fail> {
    let alloc = rt.alloc();
    let mut list: List<u64> = List::new(alloc);
    list.push(7)?;
    let copy = list.copy(alloc)?;
    list.clear();
    assert_eq!(rt; list.len(), 0);
    assert_eq!(rt; copy.into_vec().as_slice(), [7u64].as_slice());
    let octets = Octets::from_slice(alloc, b"ab")?;
    assert_eq!(rt; octets.copy(alloc)?.as_slice(), b"ab".as_slice());
    assert_eq!(rt; Moment::of(5).milliseconds(), 5);
    assert_eq!(rt; Moment::of(u64::MAX).milliseconds(), 253402300799999);
    Ok(())
}

fn is_told(alloc: Global, reason: &Reason, words: &str) -> Result<bool, Fail> {
    Ok(reason.text(alloc)?.as_str() == words)
}

#[test]
fn reasons_with_a_place_or_a_path_are_told(rt: HostRuntime) -> Result<(), Fail> {
    let alloc = rt.alloc();
    let field = Reason::UnknownField(text(alloc, "body.at")?);
    assert!(rt; is_told(alloc, &field, "unknown field: body.at")?);
    assert!(rt; is_told(alloc, &Reason::FilterMixed(30), "filter: mixed at 30")?);
    assert!(rt; is_told(alloc, &Reason::FilterSyntax(11), "filter: syntax at 11")?);
    assert!(rt; is_told(alloc, &Reason::MessageEmpty(0), "messages[0]: empty")?);
    assert!(rt;
        is_told(
            alloc,
            &Reason::MessageAttributes(1),
            "messages[1]: attributes"
        )?
    );
    assert!(rt;
        is_told(
            alloc,
            &Reason::MessageAttributeKey(2),
            "messages[2]: attribute key"
        )?
    );
    assert!(rt;
        is_told(
            alloc,
            &Reason::MessageAttributeValue(3),
            "messages[3]: attribute value"
        )?
    );
    assert!(rt;
        is_told(
            alloc,
            &Reason::MessageOrderingKey(999),
            "messages[999]: ordering key"
        )?
    );
    Ok(())
}

#[test]
fn other_reasons_are_told_by_their_words(rt: HostRuntime) -> Result<(), Fail> {
    let alloc = rt.alloc();
    let table = [
        (Reason::Path, "path"),
        (Reason::UpdateMask, "updateMask"),
        (Reason::MessageRetentionDuration, "messageRetentionDuration"),
        (Reason::AckDeadlineSeconds, "ackDeadlineSeconds"),
        (Reason::FilterTooLong, "filter: too long"),
        (Reason::MaxDeliveryAttempts, "maxDeliveryAttempts"),
        (Reason::Messages, "messages"),
        (Reason::RequestSize, "request size"),
        (Reason::MaxMessages, "maxMessages"),
        (Reason::AckIds, "ackIds"),
        (Reason::SeekTarget, "seek target"),
        (Reason::PageSize, "pageSize"),
        (Reason::Detached, "detached"),
        (Reason::TopicDeleted, "topic deleted"),
        (Reason::SnapshotLifetime, "snapshot lifetime"),
        (Reason::SnapshotTopic, "snapshot topic"),
    ];
    for (reason, words) in table {
        assert!(rt; is_told(alloc, &reason, words)?, "{words}");
    }
    Ok(())
}

#[test]
fn labels_have_ascending_keys(rt: HostRuntime) -> Result<(), Fail> {
    let alloc = rt.alloc();
    let table: [(&[&str], bool); 6] = [
        (&[], true),
        (&["a"], true),
        (&["", "a", "aa", "b"], true),
        (&["a", "a"], false),
        (&["b", "a"], false),
        (&["a", "c", "b"], false),
    ];
    for (keys, ascends) in table {
        assert_eq!(rt; Labels::of(pairs(alloc, keys)?).is_some(), ascends);
    }
    let labels = Labels::of(pairs(alloc, &["env"])?).ok_or("these ascend")?;
    assert_eq!(rt; labels.copy(alloc)?.as_slice().len(), 1);
    assert_eq!(rt; Labels::new(alloc).as_slice().len(), 0);
    Ok(())
}
