// The spelling of single values as bytes.
use ps_base::{AckId, Labels, List, Octets, OutOfMemory, Text};
use ps_codec::{FieldReader, FieldWriter};
use ps_config::{DeadLetterPolicy, RetryPolicy, SubConfig, TopicConfig};
use ps_message::Message;
use ps_model::Form;
use ps_names::{SnapName, SubName, TopicName};
use ps_transcript::{Case, bytes, cases};
use std::alloc::Global;
use std::process::Abort;
use std::test::Fail;

/// A line names a kind of value and has bytes. The answer says how many bytes are left behind the value at the front,
/// or that there is none.
const SPELLINGS: &str = r#"
> flag ""
> flag 02
> flag ff
< none
> flag 00
> flag 01
< 0 left
> flag 01 02
< 1 left

> option ""
> option 01 000000
> option 02 00000005
> option 02
< none
> option 00
> option 01 00000005
< 0 left
> option 00 00000005
< 4 left

> list 000000
> list 00000003 00000007 00000008
> list 00000002 00000007 000000
> list ffffffff 00000007
< none
> list 00000000
> list 00000002 00000007 00000008
< 0 left
> list 00000001 00000007 00000008
< 4 left

> labels 00000002 00000001 "a" 00000001 "1" 00000002 "bc" 00000000
> labels 00000002 00000000 00000000 00000001 "a" 00000000
< 0 left
# The keys ascend.
> labels 00000002 00000001 "a" 00000001 "1" 00000001 "a" 00000001 "2"
> labels 00000002 00000002 "bc" 00000000 00000001 "a" 00000001 "1"
> labels 00000002 00000002 "ab" 00000000 00000001 "a" 00000001 "1"
> labels 00000001 00000001 "a" 00000001 ff
< none

> bytes 00000001 ff
> text 00000002 c3a9
< 0 left
> text 00000001 ff
< none

> topic 00000015 "projects/p/topics/abc"
> subscription 0000001c "projects/p/subscriptions/abc"
> snapshot 00000018 "projects/p/snapshots/abc"
< 0 left
> topic 0000001c "projects/p/subscriptions/abc"
> topic 00000018 "projects/p/snapshots/abc"
> subscription 00000015 "projects/p/topics/abc"
> subscription 00000018 "projects/p/snapshots/abc"
> snapshot 00000015 "projects/p/topics/abc"
> snapshot 0000001c "projects/p/subscriptions/abc"
< none
"#;

fn written<A: Form>(alloc: Global, value: A) -> Result<Octets, OutOfMemory> {
    let mut writer = FieldWriter::new(alloc);
    match value.write_to(&mut writer) {
        Ok(()) => Ok(writer.finish()),
        Err(error) => Err(error),
    }
}

fn is_written_as<A: Form>(alloc: Global, value: A, bytes: &[u8]) -> Result<bool, OutOfMemory> {
    Ok(written(alloc, value)?.as_slice() == bytes)
}

/// How many bytes a value leaves over that is read and whose bytes are those that were read. None where none is.
fn left_over<A: Form>(alloc: Global, bytes: &[u8]) -> Result<Option<usize>, OutOfMemory> {
    let mut reader = FieldReader::new(bytes);
    match A::read_from(alloc, &mut reader) {
        Ok(Some(value)) => {
            let left = reader.left();
            let taken = &bytes[..bytes.len().saturating_sub(left)];
            let is_same = is_written_as(alloc, value, taken)?;
            Ok(is_same.then_some(left))
        }
        Ok(None) => Ok(None),
        Err(error) => Err(error),
    }
}

fn left_over_by(alloc: Global, kind: &str, bytes: &[u8]) -> Result<Option<usize>, Fail> {
    match kind {
        "flag" => Ok(left_over::<bool>(alloc, bytes)?),
        "option" => Ok(left_over::<Option<u32>>(alloc, bytes)?),
        "list" => Ok(left_over::<List<u32>>(alloc, bytes)?),
        "labels" => Ok(left_over::<Labels>(alloc, bytes)?),
        "bytes" => Ok(left_over::<Octets>(alloc, bytes)?),
        "text" => Ok(left_over::<Text>(alloc, bytes)?),
        "topic" => Ok(left_over::<TopicName>(alloc, bytes)?),
        "subscription" => Ok(left_over::<SubName>(alloc, bytes)?),
        "snapshot" => Ok(left_over::<SnapName>(alloc, bytes)?),
        _ => Err(Fail::new("no kind of value")),
    }
}

fn answer_to(alloc: Global, asked: &str) -> Result<String, Fail> {
    let (kind, words) = asked.split_once(' ').ok_or("no bytes")?;
    let bytes = bytes(alloc, words)?;
    match left_over_by(alloc, kind, bytes.as_slice())? {
        Some(left) => Ok(format!(in alloc; "{left} left")?),
        None => Ok(String::from_str(alloc, "none")?),
    }
}

fn expect(rt: &impl Abort, alloc: Global, case: Case) -> Result<(), Fail> {
    let answer = answer_to(alloc, case.asked)?;
    assert_eq!(rt; answer.as_str(), case.answer, "{}", case.asked);
    Ok(())
}

#[test]
fn values_have_one_spelling(rt: HostRuntime) -> Result<(), Fail> {
    let alloc = rt.alloc();
    for case in cases(alloc, SPELLINGS)?.as_slice() {
        expect(&rt, alloc, *case)?;
    }
    Ok(())
}

/// A value is written so, and read again, whatever follows.
fn expect_form<A: Form>(rt: &impl Abort, alloc: Global, value: A, words: &str) -> Result<(), Fail> {
    let written = written(alloc, value)?;
    let mut row = bytes(alloc, words)?;
    assert_eq!(rt; written.as_slice(), row.as_slice());
    row.push(0xff)?;
    assert_eq!(rt; left_over::<A>(alloc, row.as_slice())?, Some(1));
    Ok(())
}

/// Two labels, `a` with the value `1` and `bc` with the empty one.
fn labels(alloc: Global) -> Result<Labels, Fail> {
    let mut pairs = List::new(alloc);
    pairs.push((Text::from_str(alloc, "a")?, Text::from_str(alloc, "1")?))?;
    pairs.push((Text::from_str(alloc, "bc")?, Text::from_str(alloc, "")?))?;
    Ok(Labels::of(pairs).ok_or("the keys ascend")?)
}

fn message(alloc: Global) -> Result<Message, Fail> {
    Ok(Message {
        payload: Octets::from_slice(alloc, b"h\xff")?,
        attributes: labels(alloc)?,
        key: Text::from_str(alloc, "k")?,
    })
}

fn topic_settings(alloc: Global) -> Result<TopicConfig, Fail> {
    Ok(TopicConfig {
        labels: labels(alloc)?,
        retention: Some(600000),
    })
}

fn dead_letter_policy(alloc: Global) -> Result<DeadLetterPolicy, Fail> {
    let topic = TopicName::read(alloc, "projects/p/topics/abc")?.ok_or("no topic")?;
    Ok(DeadLetterPolicy { topic, attempts: 5 })
}

fn settings(alloc: Global) -> Result<SubConfig, Fail> {
    Ok(SubConfig {
        ack_seconds: 10,
        retain_acked: true,
        retention: 604800000,
        labels: labels(alloc)?,
        ordering: false,
        expiration: Some(2678400000),
        filter: Text::from_str(alloc, "attributes:a")?,
        dead_letter: Some(dead_letter_policy(alloc)?),
        retry: Some(RetryPolicy {
            least: 10000,
            most: 60000,
        }),
        exactly_once: true,
    })
}

const MESSAGE: &str =
    r#"00000002 68ff 00000002 00000001 "a" 00000001 "1" 00000002 "bc" 00000000 00000001 "k""#;

const ACK_ID: &str = "0000000000000001 0000000000000002 ffffffffffffffff";

const TOPIC_SETTINGS: &str =
    r#"00000002 00000001 "a" 00000001 "1" 00000002 "bc" 00000000 01 00000000000927c0"#;

const SETTINGS: &str = r#"
0000000a 01 00000000240c8400 00000002 00000001 "a" 00000001 "1" 00000002 "bc" 00000000 00
01 000000009fa52400 0000000c "attributes:a" 01 00000015 "projects/p/topics/abc" 00000005
01 0000000000002710 000000000000ea60 01
"#;

#[test]
fn messages_and_settings_are_read_again(rt: HostRuntime) -> Result<(), Fail> {
    let alloc = rt.alloc();
    let id = AckId {
        sub: 1,
        message: 2,
        lease: u64::MAX,
    };
    expect_form(&rt, alloc, id, ACK_ID)?;
    expect_form(&rt, alloc, message(alloc)?, MESSAGE)?;
    expect_form(&rt, alloc, topic_settings(alloc)?, TOPIC_SETTINGS)?;
    expect_form(&rt, alloc, settings(alloc)?, SETTINGS)
}
