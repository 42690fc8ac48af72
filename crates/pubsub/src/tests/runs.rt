//! Runs of `batch`, with answers that were written by hand from the rules.

use crate::tests::transcripts::transcript;
use std::test::Fail;

#[test]
fn words_decide_what_runs(rt: HostRuntime) -> Result<(), Fail> {
    transcript(
        rt.alloc(),
        r#"
        $
        > {"at":1000,"verb":"PUT","path":"/v1/projects/p/topics/aaa","body":{}}
        2 usage: pubsub batch FILE | check FILE | stat FILE | compact FILE | load N | serve OPTIONS FILE
        = 2
        $ batch
        > {"at":1000,"verb":"PUT","path":"/v1/projects/p/topics/aaa","body":{}}
        2 usage: pubsub batch FILE | check FILE | stat FILE | compact FILE | load N | serve OPTIONS FILE
        = 2
        $ batch ""
        > {"at":1000,"verb":"PUT","path":"/v1/projects/p/topics/aaa","body":{}}
        2 usage: pubsub batch FILE | check FILE | stat FILE | compact FILE | load N | serve OPTIONS FILE
        = 2
        $ batch - -
        > {"at":1000,"verb":"PUT","path":"/v1/projects/p/topics/aaa","body":{}}
        2 usage: pubsub batch FILE | check FILE | stat FILE | compact FILE | load N | serve OPTIONS FILE
        = 2
        $ compact -
        > {"at":1000,"verb":"PUT","path":"/v1/projects/p/topics/aaa","body":{}}
        2 usage: pubsub batch FILE | check FILE | stat FILE | compact FILE | load N | serve OPTIONS FILE
        = 2
        $ batch -
        = 0
        "#,
    )
}

#[test]
fn lines_are_answered(rt: HostRuntime) -> Result<(), Fail> {
    transcript(
        rt.alloc(),
        r#"
        $ batch -
        > {"at":1000,"verb":"PUT","path":"/v1/projects/p/topics/aaa","body":{}}
        < {"body":{"name":"projects/p/topics/aaa"},"code":200}
        = 0
        $ batch -
        > {"at":1000,"verb":"PUT","path":"/v1/projects/p/topics/aaa","body":{}}
        < {"body":{"name":"projects/p/topics/aaa"},"code":200}
        > {"at":1000,"verb":"PUT","path":"/v1/projects/p/topics/aaa","body":{}}
        < {"body":{"error":{"code":409,"message":"projects/p/topics/aaa","status":"ALREADY_EXISTS"}},"code":409}
        >
        < {"body":{"error":{"code":400,"message":"line","status":"INVALID_ARGUMENT"}},"code":400}
        > []
        < {"body":{"error":{"code":400,"message":"line","status":"INVALID_ARGUMENT"}},"code":400}
        > {"at":1000,"verb":"PUT","path":"/v1/projects/p/topics/bbb","body":{}}
        < {"body":{"name":"projects/p/topics/bbb"},"code":200}
        = 0

        # A carriage return before the line feed is white space.
        $ batch -
        >x {"at":1000,"verb":"PUT","path":"/v1/projects/p/topics/bbb","body":null}\x0d\x0a
        < {"body":{"name":"projects/p/topics/bbb"},"code":200}
        = 0

        # The end of the input ends the last line.
        $ batch -
        > {}
        < {"body":{"error":{"code":400,"message":"line","status":"INVALID_ARGUMENT"}},"code":400}
        >- {"at":1000,"verb":"PUT","path":"/v1/projects/p/topics/bbb","body":null}
        < {"body":{"name":"projects/p/topics/bbb"},"code":200}
        = 0
        "#,
    )
}

#[test]
fn a_file_keeps_its_log(rt: HostRuntime) -> Result<(), Fail> {
    transcript(
        rt.alloc(),
        r#"
        $ batch f
        call 1000 PUT /v1/projects/p/topics/aaa {}
        gives {"name":"projects/p/topics/aaa"}
        call 1000 PUT /v1/projects/p/topics/aaa {}
        refuses 409 ALREADY_EXISTS projects/p/topics/aaa
        = 0
        $ batch g
        call 1000 PUT /v1/projects/p/topics/aaa {}
        gives {"name":"projects/p/topics/aaa"}
        = 0
        $ batch f
        call 1000 PUT /v1/projects/p/topics/aaa {}
        refuses 409 ALREADY_EXISTS projects/p/topics/aaa
        call 1000 PUT /v1/projects/p/topics/bbb {}
        gives {"name":"projects/p/topics/bbb"}
        = 0
        $ batch -
        call 1000 PUT /v1/projects/p/topics/aaa {}
        gives {"name":"projects/p/topics/aaa"}
        = 0
        $ batch -
        call 1000 PUT /v1/projects/p/topics/aaa {}
        gives {"name":"projects/p/topics/aaa"}
        = 0
        log f 2
        log g 1
        "#,
    )
}

#[test]
fn pieces_change_nothing(rt: HostRuntime) -> Result<(), Fail> {
    transcript(
        rt.alloc(),
        r#"
        ! read-size 1
        ! write-size 1
        $ batch -
        call 1000 PUT /v1/projects/p/topics/aaa {}
        gives {"name":"projects/p/topics/aaa"}
        >
        refuses 400 INVALID_ARGUMENT line
        call 1000 PUT /v1/projects/p/topics/aaa {}
        refuses 409 ALREADY_EXISTS projects/p/topics/aaa
        call 1000 PUT /v1/projects/p/topics/bbb {}
        gives {"name":"projects/p/topics/bbb"}
        = 0
        ! read-size 2
        ! write-size 1
        $ batch -
        call 1000 PUT /v1/projects/p/topics/aaa {}
        gives {"name":"projects/p/topics/aaa"}
        >
        refuses 400 INVALID_ARGUMENT line
        call 1000 PUT /v1/projects/p/topics/aaa {}
        refuses 409 ALREADY_EXISTS projects/p/topics/aaa
        call 1000 PUT /v1/projects/p/topics/bbb {}
        gives {"name":"projects/p/topics/bbb"}
        = 0
        ! read-size 3
        ! write-size 1
        $ batch -
        call 1000 PUT /v1/projects/p/topics/aaa {}
        gives {"name":"projects/p/topics/aaa"}
        >
        refuses 400 INVALID_ARGUMENT line
        call 1000 PUT /v1/projects/p/topics/aaa {}
        refuses 409 ALREADY_EXISTS projects/p/topics/aaa
        call 1000 PUT /v1/projects/p/topics/bbb {}
        gives {"name":"projects/p/topics/bbb"}
        = 0
        "#,
    )
}
