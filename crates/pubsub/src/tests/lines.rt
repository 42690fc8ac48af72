//! What a line asks.

use crate::line::read_line;
use crate::tests::transcripts::transcript;
use ps_model::Command;
use ps_run::Reading;
use std::alloc::Global;
use std::test::Fail;

/// The moment that a line names, where it asks for a call.
fn moment_of(alloc: Global, line: &str) -> Option<u64> {
    let reading = read_line(alloc, line.as_bytes()).ok()?;
    call_moment(&reading)
}

fn call_moment(reading: &Reading<Command>) -> Option<u64> {
    match reading {
        Reading::Call { now, .. } => Some(*now),
        Reading::Refused { .. } => None,
    }
}

#[test]
fn other_texts_are_no_line(rt: HostRuntime) -> Result<(), Fail> {
    transcript(
        rt.alloc(),
        r#"
        $ batch -
        >
        refuses 400 INVALID_ARGUMENT line
        > x
        refuses 400 INVALID_ARGUMENT line
        > []
        refuses 400 INVALID_ARGUMENT line
        > {"at":1,"verb":"PUT"}
        refuses 400 INVALID_ARGUMENT line
        > {"at":1,"verb":"PUT","path":"/v1/projects/p/topics/abc","body":{},"more":1}
        refuses 400 INVALID_ARGUMENT line
        > {"at":"1","verb":"PUT","path":"/v1/projects/p/topics/abc"}
        refuses 400 INVALID_ARGUMENT line
        > {"at":1.0,"verb":"PUT","path":"/v1/projects/p/topics/abc"}
        refuses 400 INVALID_ARGUMENT line
        > {"at":-0,"verb":"PUT","path":"/v1/projects/p/topics/abc"}
        refuses 400 INVALID_ARGUMENT line
        > {"at":18446744073709551616,"verb":"PUT","path":"/v1/projects/p/topics/abc"}
        refuses 400 INVALID_ARGUMENT line
        > {"at":1,"verb":null,"path":"/v1/projects/p/topics/abc"}
        refuses 400 INVALID_ARGUMENT line
        > {"at":1,"verb":"PUT","path":"/v1/projects/p/topics/abc"}}
        refuses 400 INVALID_ARGUMENT line
        >x \x22\xff\x22\x0a
        refuses 400 INVALID_ARGUMENT line
        = 0
        "#,
    )
}

/// Each line creates a topic that isn't there yet.
#[test]
fn a_line_is_a_call(rt: HostRuntime) -> Result<(), Fail> {
    let alloc = rt.alloc();
    transcript(
        alloc,
        r#"
        $$ batch -
        >x {"at":0,"verb":"PUT","path":"/v1/projects/p/topics/abc","body":{}}\x0d\x0a
        gives {"name":"projects/p/topics/abc"}
        >  {"path":"/v1/projects/p/topics/abc", "verb":"PUT", "at":18446744073709551615}
        gives {"name":"projects/p/topics/abc"}
        > {"at":1,"at":2,"verb":"PUT","path":"/v1/projects/p/topics/abc"}
        gives {"name":"projects/p/topics/abc"}
        call 7 PUT /v1/projects/p/topics/abc null
        gives {"name":"projects/p/topics/abc"}
        call 7 PUT /v1/projects/p/topics/abc {}
        gives {"name":"projects/p/topics/abc"}
        call 7 PUT /v1/projects/p/topics/abc {"name":null}
        gives {"name":"projects/p/topics/abc"}
        call 7 PUT /v1/projects/p/topics/abc {"name":"projects/p/topics/abc"}
        gives {"name":"projects/p/topics/abc"}
        call 7 PUT /v1/projects/p/topics/abc {"labels":{}}
        gives {"name":"projects/p/topics/abc"}
        call 7 PUT /v1/projects/p/topics/abc {"state":false,"tags":0,"kmsKeyName":"","messageTransforms":[],"e":null}
        gives {"name":"projects/p/topics/abc"}
        = 0
        "#,
    )?;
    let moments = [
        (
            0,
            "{\"at\":0,\"verb\":\"PUT\",\"path\":\"/v1/projects/p/topics/abc\",\"body\":{}}\r",
        ),
        (
            18446744073709551615,
            r#" {"path":"/v1/projects/p/topics/abc", "verb":"PUT", "at":18446744073709551615}"#,
        ),
        (
            2,
            r#"{"at":1,"at":2,"verb":"PUT","path":"/v1/projects/p/topics/abc"}"#,
        ),
        (
            7,
            r#"{"at":7,"verb":"PUT","path":"/v1/projects/p/topics/abc","body":null}"#,
        ),
        (
            7,
            r#"{"at":7,"verb":"PUT","path":"/v1/projects/p/topics/abc","body":{}}"#,
        ),
        (
            7,
            r#"{"at":7,"verb":"PUT","path":"/v1/projects/p/topics/abc","body":{"name":null}}"#,
        ),
        (
            7,
            r#"{"at":7,"verb":"PUT","path":"/v1/projects/p/topics/abc","body":{"name":"projects/p/topics/abc"}}"#,
        ),
        (
            7,
            r#"{"at":7,"verb":"PUT","path":"/v1/projects/p/topics/abc","body":{"labels":{}}}"#,
        ),
        (
            7,
            r#"{"at":7,"verb":"PUT","path":"/v1/projects/p/topics/abc","body":{"state":false,"tags":0,"kmsKeyName":"","messageTransforms":[],"e":null}}"#,
        ),
    ];
    for (moment, line) in moments {
        assert_eq!(rt; moment_of(alloc, line), Some(moment), "at {line}");
    }
    Ok(())
}

#[test]
fn a_path_names_a_call(rt: HostRuntime) -> Result<(), Fail> {
    transcript(
        rt.alloc(),
        r#"
        $ batch -
        call 7 PUT /v1/projects/p/topics/abc:publish {}
        refuses 404 NOT_FOUND /v1/projects/p/topics/abc:publish
        call 7 PUT /v1/projects/p/topics/abc: {}
        refuses 404 NOT_FOUND /v1/projects/p/topics/abc:
        call 7 PUT /v1/projects/p/topics/abc/x {}
        refuses 404 NOT_FOUND /v1/projects/p/topics/abc/x
        call 7 PUT /v1/projects/p/topics/abc/ {}
        refuses 404 NOT_FOUND /v1/projects/p/topics/abc/
        call 7 PUT /v1/projects/p/topics {}
        refuses 404 NOT_FOUND /v1/projects/p/topics
        call 7 PUT /v1/projects/p/nothing/abc {}
        refuses 404 NOT_FOUND /v1/projects/p/nothing/abc
        call 7 PUT /v1/projects/p/nothing/%61%2Fbc?x=1 []
        refuses 404 NOT_FOUND /v1/projects/p/nothing/%61%2Fbc
        call 7 PUT /v1/projects%2Fp/topics/abc {}
        refuses 404 NOT_FOUND /v1/projects%2Fp/topics/abc
        call 7 PUT /v2/projects/p/topics/abc {}
        refuses 404 NOT_FOUND /v2/projects/p/topics/abc
        call 7 PUT /v1%2Fprojects/p/topics/abc {}
        refuses 404 NOT_FOUND /v1%2Fprojects/p/topics/abc
        call 7 PUT v1/projects/p/topics/abc {}
        refuses 404 NOT_FOUND v1/projects/p/topics/abc
        call 7 PUT /v1/projects/p/Topics/abc {}
        refuses 404 NOT_FOUND /v1/projects/p/Topics/abc
        > {"at":7,"verb":"PUT","path":"","body":{}}
        < {"body":{"error":{"code":404,"message":"","status":"NOT_FOUND"}},"code":404}
        > {"at":7,"verb":"PUT","path":"?/v1/projects/p/topics/abc","body":{}}
        < {"body":{"error":{"code":404,"message":"","status":"NOT_FOUND"}},"code":404}
        call 7 PUT /v1/projects/p/topics/ {}
        refuses 400 INVALID_ARGUMENT name
        call 7 PUT /v1/projects//topics/abc {}
        refuses 400 INVALID_ARGUMENT name
        call 7 PUT /v1/projects/p/topics/ab {}
        refuses 400 INVALID_ARGUMENT name
        call 7 PUT /v1/projects/p/topics/google-x {}
        refuses 400 INVALID_ARGUMENT name
        call 7 PUT /v1/projects/P/topics/abc {}
        refuses 400 INVALID_ARGUMENT name
        call 7 PUT /v1/projects/p/topics/a%2Fbc {}
        refuses 400 INVALID_ARGUMENT name
        call 7 PUT /v1/projects/p/topics/ab%3Fc {}
        refuses 400 INVALID_ARGUMENT name
        > {"at":7,"verb":"put","path":"/v1/projects/p/topics/abc"}
        refuses 404 NOT_FOUND /v1/projects/p/topics/abc
        call 7 PUT /v1/projects/p/topics/ab%FFc []
        refuses 400 INVALID_ARGUMENT path
        call 7 PUT /v1/%80 {}
        refuses 400 INVALID_ARGUMENT path
        call 7 PUT /v1/projects/p/topics/abc:%C3%28 {}
        refuses 400 INVALID_ARGUMENT path
        call 7 PUT /v2/%80 {}
        refuses 404 NOT_FOUND /v2/%80
        = 0
        "#,
    )
}

/// A path is decoded part by part, and the pairs of a query that no list uses are ignored.
#[test]
fn a_path_is_decoded(rt: HostRuntime) -> Result<(), Fail> {
    transcript(
        rt.alloc(),
        r#"
        $ batch -
        call 7 PUT /v1/%70rojects/p/topics/a%62c?alt=json&prettyPrint=true {}
        gives {"name":"projects/p/topics/abc"}
        call 7 GET /v1/projects/p/topics/abc?alt=json {}
        gives {"name":"projects/p/topics/abc"}
        call 7 GET /v1/projects/p/topics/abc? {}
        gives {"name":"projects/p/topics/abc"}
        call 7 GET /v1/projects/p/topics/%61bc?pageSize=x&%FF ["the body isn't looked at"]
        gives {"name":"projects/p/topics/abc"}
        call 7 PUT /v1/projects/p/topics/ab%zz {}
        gives {"name":"projects/p/topics/ab%zz"}
        call 7 GET /v1/projects/p/topics/ab%25zz {}
        gives {"name":"projects/p/topics/ab%zz"}
        call 7 GET /v1/projects/p/topics/ab%2 {}
        refuses 404 NOT_FOUND projects/p/topics/ab%2
        call 7 GET /v1/projects/p/topics/a%2Fbc {}
        refuses 400 INVALID_ARGUMENT name
        call 7 POST /v1/projects/p/topics/abc%3Apublish?alt=json {"messages":[{"data":"aGk="}]}
        gives {"messageIds":["1"]}
        = 0
        "#,
    )
}

#[test]
fn a_body_is_checked_in_order(rt: HostRuntime) -> Result<(), Fail> {
    transcript(
        rt.alloc(),
        r#"
        $ batch -
        call 7 PUT /v1/projects/p/topics/abc []
        refuses 400 INVALID_ARGUMENT body
        call 7 PUT /v1/projects/p/topics/abc 7
        refuses 400 INVALID_ARGUMENT body
        call 7 PUT /v1/projects/p/topics/ab ""
        refuses 400 INVALID_ARGUMENT body
        call 7 PUT /v1 7
        refuses 404 NOT_FOUND /v1
        call 7 PUT /v1/projects/p/topics/abc {"schemaSettings":{"schema":"x"}}
        refuses 501 UNIMPLEMENTED schemaSettings
        call 7 PUT /v1/projects/p/topics/abc {"b":1,"a":true,"Z":[0]}
        refuses 400 INVALID_ARGUMENT unknown field: Z
        call 7 PUT /v1/projects/p/topics/ab {"name":7,"tags":[1]}
        refuses 501 UNIMPLEMENTED tags
        call 7 PUT /v1/projects/p/topics/ab {"name":7}
        refuses 400 INVALID_ARGUMENT name
        call 7 PUT /v1/projects/p/topics/abc {"name":7}
        refuses 400 INVALID_ARGUMENT shape: name
        call 7 PUT /v1/projects/p/topics/abc {"name":false}
        refuses 400 INVALID_ARGUMENT shape: name
        call 7 PUT /v1/projects/p/topics/abc {"name":{}}
        refuses 400 INVALID_ARGUMENT shape: name
        call 7 PUT /v1/projects/p/topics/abc {"name":""}
        refuses 400 INVALID_ARGUMENT name
        call 7 PUT /v1/projects/p/topics/abc {"name":"projects/p/topics/other"}
        refuses 400 INVALID_ARGUMENT name
        = 0
        "#,
    )
}
