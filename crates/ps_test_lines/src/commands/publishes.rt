// Publishes.

use super::expect_all;
use std::test::Fail;

/// Messages with their payload, attributes and ordering key.
const MESSAGES: &str = r#"
> Publish projects/p/topics/abc {"messages":[{"data":"aGk=","attributes":{"b":"1","a":""},"orderingKey":"k"},{"data":"aGk"}]}
< projects/p/topics/abc [104, 105] {a=;b=1;} "k" [104, 105] {} ""
> Publish projects/p/topics/abc {"messages":[{"data":null,"attributes":{"a":"1","a":"2"},"orderingKey":null,"messageId":7,"publishTime":{}}]}
< projects/p/topics/abc [] {a=2;} ""
> Publish projects/p/topics/abc {"messages":[{"orderingKey":"k"},{"data":"aGk="}]}
< 400 messages[0]: empty
> Publish projects/p/topics/abc {"messages":[{"data":"aGk=","x":null},{"attributes":{"":"1"}}]}
< 400 messages[1]: attribute key
> Publish projects/p/topics/abc {"messages":[]}
> Publish projects/p/topics/abc {"messages":null}
< 400 messages
> Publish projects/p/topics/abc {"messages":{}}
< 400 shape: messages
> Publish projects/p/topics/abc {"messages":[{"x":1},null,7]}
< 400 shape: messages[1]
> Publish projects/p/topics/abc {"messages":[{},{"orderingKey":7,"data":7}]}
< 400 shape: messages[1].data
> Publish projects/p/topics/abc {"messages":[{"attributes":{"a":7}}]}
> Publish projects/p/topics/abc {"messages":[{"attributes":{"a":null},"orderingKey":7}]}
> Publish projects/p/topics/abc {"messages":[{"attributes":[],"orderingKey":7}]}
< 400 shape: messages[0].attributes
> Publish projects/p/topics/abc {"messages":[{"orderingKey":7}]}
< 400 shape: messages[0].orderingKey
> Publish projects/p/topics/abc {"messages":[{},{},{"x":""},{},{},{},{},{},{},{},{"x":1}]}
< 400 unknown field: messages[10].x
> Publish projects/p/topics/abc {"messages":[{"z":0,"y":0},{"x":0}]}
< 400 unknown field: messages[0].y
"#;

/// The name is looked at before the messages.
const MESSAGES_TO_NO_TOPIC: &str = r#"
> Publish projects/p/topics/ab {"messages":[{"data":"aGk=","attributes":{"b":"1","a":""},"orderingKey":"k"},{"data":"aGk"}]}
> Publish projects/p/topics/ab {"messages":[{"data":null,"attributes":{"a":"1","a":"2"},"orderingKey":null,"messageId":7,"publishTime":{}}]}
> Publish projects/p/topics/ab {"messages":[{"orderingKey":"k"},{"data":"aGk="}]}
> Publish projects/p/topics/ab {"messages":[{"data":"aGk=","x":null},{"attributes":{"":"1"}}]}
> Publish projects/p/topics/ab {"messages":[]}
> Publish projects/p/topics/ab {"messages":null}
> Publish projects/p/topics/ab {"messages":{}}
> Publish projects/p/topics/ab {"messages":[{"x":1},null,7]}
> Publish projects/p/topics/ab {"messages":[{},{"orderingKey":7,"data":7}]}
> Publish projects/p/topics/ab {"messages":[{"attributes":{"a":7}}]}
> Publish projects/p/topics/ab {"messages":[{"attributes":{"a":null},"orderingKey":7}]}
> Publish projects/p/topics/ab {"messages":[{"attributes":[],"orderingKey":7}]}
> Publish projects/p/topics/ab {"messages":[{"orderingKey":7}]}
> Publish projects/p/topics/ab {"messages":[{},{},{"x":""},{},{},{},{},{},{},{},{"x":1}]}
> Publish projects/p/topics/ab {"messages":[{"z":0,"y":0},{"x":0}]}
< 400 name
"#;

/// Of unknown fields the one with the least path is told.
const UNKNOWN_FIELDS: &str = r#"
> Publish projects/p/topics/abc {}
< 400 messages
> Publish projects/p/topics/abc {"other":1}
< 400 unknown field: other
> Publish projects/p/topics/abc {"other":1,"messages":[{"x":1}]}
< 400 unknown field: messages[0].x
> Publish projects/p/topics/abc {"a":[],"messages":[{"x":1}]}
< 400 unknown field: a
> Publish projects/p/topics/abc {"a":1,"messages":[{"data":7}]}
< 400 shape: messages[0].data
"#;

/// Payloads are base64 of either alphabet, with its padding or without.
const PAYLOADS: &str = r#"
> Publish projects/p/topics/abc {"messages":[{"data":"+/8="}]}
> Publish projects/p/topics/abc {"messages":[{"data":"+/8"}]}
> Publish projects/p/topics/abc {"messages":[{"data":"-_8="}]}
> Publish projects/p/topics/abc {"messages":[{"data":"-_8"}]}
< projects/p/topics/abc [251, 255] {} ""
> Publish projects/p/topics/abc {"messages":[{"data":"YQ=="}]}
> Publish projects/p/topics/abc {"messages":[{"data":"YQ"}]}
< projects/p/topics/abc [97] {} ""
> Publish projects/p/topics/abc {"messages":[{"data":""}]}
< 400 messages[0]: empty
> Publish projects/p/topics/abc {"messages":[{"data":"YQ="}]}
> Publish projects/p/topics/abc {"messages":[{"data":"YR=="}]}
> Publish projects/p/topics/abc {"messages":[{"data":"YR"}]}
> Publish projects/p/topics/abc {"messages":[{"data":"+_8="}]}
> Publish projects/p/topics/abc {"messages":[{"data":"Y"}]}
> Publish projects/p/topics/abc {"messages":[{"data":"YQ =="}]}
> Publish projects/p/topics/abc {"messages":[{"data":"aGk=aGk="}]}
< 400 shape: messages[0].data
"#;

#[test]
fn publishes_are_read(rt: HostRuntime) -> Result<(), Fail> {
    expect_all(
        &rt,
        rt.alloc(),
        &[MESSAGES, MESSAGES_TO_NO_TOPIC, UNKNOWN_FIELDS, PAYLOADS],
    )
}
