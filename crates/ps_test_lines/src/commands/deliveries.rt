// Pulls, acknowledgements and changes of deadlines.

use super::expect_all;
use std::test::Fail;

/// Pulls, of 1,000 messages at most.
const PULLS: &str = r#"
> Pull projects/p/subscriptions/sub {"maxMessages":1}
> Pull projects/p/subscriptions/sub {"maxMessages":1,"returnImmediately":true,"other":null}
> Pull projects/p/subscriptions/sub {"maxMessages":1,"returnImmediately":null}
> Pull projects/p/subscriptions/sub {"maxMessages":0,"maxMessages":1}
< projects/p/subscriptions/sub 1 10000000 None
> Pull projects/p/subscriptions/sub {"maxMessages":1000}
> Pull projects/p/subscriptions/sub {"maxMessages":1001}
> Pull projects/p/subscriptions/sub {"maxMessages":9223372036854775807}
< projects/p/subscriptions/sub 1000 10000000 None
> Pull projects/p/subscriptions/x {"maxMessages":"x"}
> Pull projects//subscriptions/sub {"maxMessages":1}
< 400 name
> Pull projects/p/subscriptions/sub {"maxMessages":[],"returnImmediately":7}
< 400 shape: maxMessages
> Pull projects/p/subscriptions/sub {"maxMessages":0,"returnImmediately":"true","max":1}
< 400 shape: returnImmediately
> Pull projects/p/subscriptions/sub {"maxMessages":0,"max":0,"MAX":""}
< 400 unknown field: MAX
> Pull projects/p/subscriptions/sub {"maxMessages":0}
> Pull projects/p/subscriptions/sub {"maxMessages":-1}
> Pull projects/p/subscriptions/sub {"maxMessages":null}
> Pull projects/p/subscriptions/sub {}
< 400 maxMessages
"#;

/// A whole number is a JSON number without sign, point and exponent unless it is below 0, or a text of decimal digits.
const WHOLE_NUMBERS: &str = r#"
> Pull projects/p/subscriptions/sub {"maxMessages":"007"}
< projects/p/subscriptions/sub 7 10000000 None
> Pull projects/p/subscriptions/sub {"maxMessages":"9223372036854775807"}
< projects/p/subscriptions/sub 1000 10000000 None
> Pull projects/p/subscriptions/sub {"maxMessages":"9223372036854775808"}
> Pull projects/p/subscriptions/sub {"maxMessages":9223372036854775808}
< 400 shape: maxMessages
> Pull projects/p/subscriptions/sub {"maxMessages":"-9223372036854775808"}
> Pull projects/p/subscriptions/sub {"maxMessages":-9223372036854775808}
< 400 maxMessages
> Pull projects/p/subscriptions/sub {"maxMessages":"-9223372036854775809"}
< 400 shape: maxMessages
> Pull projects/p/subscriptions/sub {"maxMessages":"-0"}
> Pull projects/p/subscriptions/sub {"maxMessages":"-5"}
< 400 maxMessages
> Pull projects/p/subscriptions/sub {"maxMessages":-0}
> Pull projects/p/subscriptions/sub {"maxMessages":1.0}
> Pull projects/p/subscriptions/sub {"maxMessages":1e2}
> Pull projects/p/subscriptions/sub {"maxMessages":"+5"}
> Pull projects/p/subscriptions/sub {"maxMessages":"--5"}
> Pull projects/p/subscriptions/sub {"maxMessages":"-"}
> Pull projects/p/subscriptions/sub {"maxMessages":""}
> Pull projects/p/subscriptions/sub {"maxMessages":" 1"}
> Pull projects/p/subscriptions/sub {"maxMessages":"1x"}
> Pull projects/p/subscriptions/sub {"maxMessages":true}
< 400 shape: maxMessages
"#;

/// Acknowledgements.
const ACKNOWLEDGEMENTS: &str = r#"
> Acknowledge projects/p/subscriptions/sub {"ackIds":["AAAAAAAAAAEAAAAAAAAAAwAAAAAAAAAC","AAAAAAAAAAEAAAAAAAAAAQAAAAAAAAAB","AAAAAAAAAAEAAAAAAAAAAwAAAAAAAAAC"]}
< projects/p/subscriptions/sub 1/3/2 1/1/1 1/3/2
> Acknowledge projects/p/subscriptions/sub {"ackIds":"AAAAAAAAAAEAAAAAAAAAAQAAAAAAAAAB"}
< 400 shape: ackIds
> Acknowledge projects/p/subscriptions/sub {"ackIds":["x",null,7],"other":1}
< 400 shape: ackIds[1]
> Acknowledge projects/p/subscriptions/sub {"ackIds":[],"other":1,"more":0}
< 400 unknown field: more
> Acknowledge projects/p/subscriptions/sub {"ackIds":[]}
> Acknowledge projects/p/subscriptions/sub {"ackIds":null}
> Acknowledge projects/p/subscriptions/sub {}
> Acknowledge projects/p/subscriptions/sub {"ackIds":["AAAAAAAAAAEAAAAAAAAAAQAAAAAAAAAB",""]}
> Acknowledge projects/p/subscriptions/sub {"ackIds":["AAAAAAAAAAEAAAAAAAAAAQAAAAAAAA-_"]}
> Acknowledge projects/p/subscriptions/sub {"ackIds":["AAAAAAAAAAEAAAAAAAAAAQAAAAAAAA=="]}
> Acknowledge projects/p/subscriptions/sub {"ackIds":["AAAAAAAAAAEAAAAAAAAAAQAAAAAAAAABAAAA"]}
< 400 ackIds
"#;

/// The name is looked at before the ids.
const ACKNOWLEDGEMENTS_OF_NO_SUBSCRIPTION: &str = r#"
> Acknowledge projects/p/subscriptions/ab {"ackIds":["AAAAAAAAAAEAAAAAAAAAAwAAAAAAAAAC","AAAAAAAAAAEAAAAAAAAAAQAAAAAAAAAB","AAAAAAAAAAEAAAAAAAAAAwAAAAAAAAAC"]}
> Acknowledge projects/p/subscriptions/ab {"ackIds":"AAAAAAAAAAEAAAAAAAAAAQAAAAAAAAAB"}
> Acknowledge projects/p/subscriptions/ab {"ackIds":["x",null,7],"other":1}
> Acknowledge projects/p/subscriptions/ab {"ackIds":[],"other":1,"more":0}
> Acknowledge projects/p/subscriptions/ab {"ackIds":[]}
> Acknowledge projects/p/subscriptions/ab {"ackIds":null}
> Acknowledge projects/p/subscriptions/ab {}
> Acknowledge projects/p/subscriptions/ab {"ackIds":["AAAAAAAAAAEAAAAAAAAAAQAAAAAAAAAB",""]}
> Acknowledge projects/p/subscriptions/ab {"ackIds":["AAAAAAAAAAEAAAAAAAAAAQAAAAAAAA-_"]}
> Acknowledge projects/p/subscriptions/ab {"ackIds":["AAAAAAAAAAEAAAAAAAAAAQAAAAAAAA=="]}
> Acknowledge projects/p/subscriptions/ab {"ackIds":["AAAAAAAAAAEAAAAAAAAAAQAAAAAAAAABAAAA"]}
< 400 name
"#;

/// Changes of deadlines, of 600 seconds at most. Without seconds they are 0.
const DEADLINES: &str = r#"
> ModifyAckDeadline projects/p/subscriptions/sub {"ackIds":["AAAAAAAAAAEAAAAAAAAAAwAAAAAAAAAC","AAAAAAAAAAEAAAAAAAAAAQAAAAAAAAAB","AAAAAAAAAAEAAAAAAAAAAwAAAAAAAAAC"],"ackDeadlineSeconds":600}
< projects/p/subscriptions/sub 1/3/2=600 1/1/1=600 1/3/2=600
> ModifyAckDeadline projects/p/subscriptions/sub {"ackIds":["AAAAAAAAAAEAAAAAAAAAAwAAAAAAAAAC"],"ackDeadlineSeconds":"1"}
< projects/p/subscriptions/sub 1/3/2=1
> ModifyAckDeadline projects/p/subscriptions/sub {"ackIds":["AAAAAAAAAAEAAAAAAAAAAwAAAAAAAAAC"]}
> ModifyAckDeadline projects/p/subscriptions/sub {"ackIds":["AAAAAAAAAAEAAAAAAAAAAwAAAAAAAAAC"],"ackDeadlineSeconds":null}
> ModifyAckDeadline projects/p/subscriptions/sub {"ackIds":["AAAAAAAAAAEAAAAAAAAAAwAAAAAAAAAC"],"ackDeadlineSeconds":0}
< projects/p/subscriptions/sub 1/3/2=0
> ModifyAckDeadline projects/p/subscriptions/ab {"ackIds":7,"ackDeadlineSeconds":"x"}
< 400 name
> ModifyAckDeadline projects/p/subscriptions/sub {"ackIds":"x","ackDeadlineSeconds":"x"}
< 400 shape: ackIds
> ModifyAckDeadline projects/p/subscriptions/sub {"ackIds":["x"],"ackDeadlineSeconds":"x","a":1}
> ModifyAckDeadline projects/p/subscriptions/sub {"ackIds":["x"],"ackDeadlineSeconds":1.0}
< 400 shape: ackDeadlineSeconds
> ModifyAckDeadline projects/p/subscriptions/sub {"ackIds":["x"],"ackDeadlineSeconds":601,"a":1,"b":1}
< 400 unknown field: a
> ModifyAckDeadline projects/p/subscriptions/sub {"ackIds":["x"],"ackDeadlineSeconds":601}
> ModifyAckDeadline projects/p/subscriptions/sub {"ackDeadlineSeconds":601}
> ModifyAckDeadline projects/p/subscriptions/sub {}
< 400 ackIds
> ModifyAckDeadline projects/p/subscriptions/sub {"ackIds":["AAAAAAAAAAEAAAAAAAAAAwAAAAAAAAAC"],"ackDeadlineSeconds":601}
> ModifyAckDeadline projects/p/subscriptions/sub {"ackIds":["AAAAAAAAAAEAAAAAAAAAAwAAAAAAAAAC"],"ackDeadlineSeconds":-1}
> ModifyAckDeadline projects/p/subscriptions/sub {"ackIds":["AAAAAAAAAAEAAAAAAAAAAwAAAAAAAAAC"],"ackDeadlineSeconds":4294967296}
> ModifyAckDeadline projects/p/subscriptions/sub {"ackIds":["AAAAAAAAAAEAAAAAAAAAAwAAAAAAAAAC"],"ackDeadlineSeconds":"9223372036854775807"}
< 400 ackDeadlineSeconds
"#;

#[test]
fn changes_of_deadlines_are_read(rt: HostRuntime) -> Result<(), Fail> {
    expect_all(&rt, rt.alloc(), &[DEADLINES])
}

#[test]
fn pulls_are_read(rt: HostRuntime) -> Result<(), Fail> {
    expect_all(&rt, rt.alloc(), &[PULLS, WHOLE_NUMBERS])
}

#[test]
fn acknowledgements_are_read(rt: HostRuntime) -> Result<(), Fail> {
    expect_all(
        &rt,
        rt.alloc(),
        &[ACKNOWLEDGEMENTS, ACKNOWLEDGEMENTS_OF_NO_SUBSCRIPTION],
    )
}
