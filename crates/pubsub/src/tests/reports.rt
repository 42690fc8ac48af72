//! What `check` and `stat` print, against texts that were written by hand from the rules. They leave an input as it is.

use crate::tests::transcripts::transcript;
use std::test::Fail;

#[test]
fn other_words_are_no_report(rt: HostRuntime) -> Result<(), Fail> {
    transcript(
        rt.alloc(),
        r#"
        $ check
        call 1000 PUT /v1/projects/p/topics/aaa {}
        call 2000 PUT /v1/projects/p/topics/bbb {}
        2 usage: pubsub batch FILE | check FILE | stat FILE | compact FILE | load N | serve OPTIONS FILE
        = 2
        $ check ""
        call 1000 PUT /v1/projects/p/topics/aaa {}
        call 2000 PUT /v1/projects/p/topics/bbb {}
        2 usage: pubsub batch FILE | check FILE | stat FILE | compact FILE | load N | serve OPTIONS FILE
        = 2
        $ stat ""
        call 1000 PUT /v1/projects/p/topics/aaa {}
        call 2000 PUT /v1/projects/p/topics/bbb {}
        2 usage: pubsub batch FILE | check FILE | stat FILE | compact FILE | load N | serve OPTIONS FILE
        = 2
        $ stat a b
        call 1000 PUT /v1/projects/p/topics/aaa {}
        call 2000 PUT /v1/projects/p/topics/bbb {}
        2 usage: pubsub batch FILE | check FILE | stat FILE | compact FILE | load N | serve OPTIONS FILE
        = 2
        $ Check f
        call 1000 PUT /v1/projects/p/topics/aaa {}
        call 2000 PUT /v1/projects/p/topics/bbb {}
        2 usage: pubsub batch FILE | check FILE | stat FILE | compact FILE | load N | serve OPTIONS FILE
        = 2
        $ f check
        call 1000 PUT /v1/projects/p/topics/aaa {}
        call 2000 PUT /v1/projects/p/topics/bbb {}
        2 usage: pubsub batch FILE | check FILE | stat FILE | compact FILE | load N | serve OPTIONS FILE
        = 2
        "#,
    )
}

#[test]
fn an_empty_log_has_its_reports(rt: HostRuntime) -> Result<(), Fail> {
    transcript(
        rt.alloc(),
        r#"
        $ check -
        call 1000 PUT /v1/projects/p/topics/aaa {}
        call 2000 PUT /v1/projects/p/topics/bbb {}
        < ok 0
        = 0
        $ check f
        call 1000 PUT /v1/projects/p/topics/aaa {}
        call 2000 PUT /v1/projects/p/topics/bbb {}
        < ok 0
        = 0
        $ stat f
        call 1000 PUT /v1/projects/p/topics/aaa {}
        call 2000 PUT /v1/projects/p/topics/bbb {}
        < entries 0
        < now 0
        < topics 0
        < subscriptions 0
        < snapshots 0
        < messages 0
        < backlog 0
        < leased 0
        < acknowledged 0
        < dead-lettered 0
        = 0
        "#,
    )
}

#[test]
fn reports_only_read_a_log(rt: HostRuntime) -> Result<(), Fail> {
    transcript(
        rt.alloc(),
        r#"
        $ batch f
        call 1000 PUT /v1/projects/p/topics/aaa {}
        gives {"name":"projects/p/topics/aaa"}
        call 2000 PUT /v1/projects/p/topics/bbb {}
        gives {"name":"projects/p/topics/bbb"}
        = 0
        $ check f
        call 1000 PUT /v1/projects/p/topics/aaa {}
        call 2000 PUT /v1/projects/p/topics/bbb {}
        < ok 2
        = 0
        $ check f
        call 1000 PUT /v1/projects/p/topics/aaa {}
        call 2000 PUT /v1/projects/p/topics/bbb {}
        < ok 2
        = 0
        $ stat f
        call 1000 PUT /v1/projects/p/topics/aaa {}
        call 2000 PUT /v1/projects/p/topics/bbb {}
        < entries 2
        < now 2000
        < topics 2
        < subscriptions 0
        < snapshots 0
        < messages 0
        < backlog 0
        < leased 0
        < acknowledged 0
        < dead-lettered 0
        = 0
        $ check g
        call 1000 PUT /v1/projects/p/topics/aaa {}
        call 2000 PUT /v1/projects/p/topics/bbb {}
        < ok 0
        = 0
        log f 2
        "#,
    )
}

#[test]
fn a_batch_after_a_report_finds_the_log(rt: HostRuntime) -> Result<(), Fail> {
    transcript(
        rt.alloc(),
        r#"
        $ batch f
        call 1000 PUT /v1/projects/p/topics/aaa {}
        gives {"name":"projects/p/topics/aaa"}
        call 2000 PUT /v1/projects/p/topics/bbb {}
        gives {"name":"projects/p/topics/bbb"}
        = 0
        $ check f
        call 1000 PUT /v1/projects/p/topics/aaa {}
        call 2000 PUT /v1/projects/p/topics/bbb {}
        < ok 2
        = 0
        ! write 2
        $ batch f
        call 1000 PUT /v1/projects/p/topics/aaa {}
        refuses 409 ALREADY_EXISTS projects/p/topics/aaa
        call 2000 PUT /v1/projects/p/topics/bbb {}
        2 write fault
        = 4
        $ check f
        call 1000 PUT /v1/projects/p/topics/aaa {}
        call 2000 PUT /v1/projects/p/topics/bbb {}
        < ok 2
        = 0
        "#,
    )
}

#[test]
fn a_bad_row_has_no_report(rt: HostRuntime) -> Result<(), Fail> {
    transcript(
        rt.alloc(),
        r#"
        rows f \x01\x00\x00\x00\x00\x00\x00\x03\xe8\x01
        $ check f
        call 1000 PUT /v1/projects/p/topics/aaa {}
        call 2000 PUT /v1/projects/p/topics/bbb {}
        2 bad row 1
        = 6
        $ stat f
        call 1000 PUT /v1/projects/p/topics/aaa {}
        call 2000 PUT /v1/projects/p/topics/bbb {}
        2 bad row 1
        = 6
        log f 1
        "#,
    )
}

#[test]
fn a_fault_of_the_store_ends_a_report(rt: HostRuntime) -> Result<(), Fail> {
    transcript(
        rt.alloc(),
        r#"
        store f 1:before
        $ check f
        call 1000 PUT /v1/projects/p/topics/aaa {}
        call 2000 PUT /v1/projects/p/topics/bbb {}
        2 store fault
        = 5
        $ check f
        call 1000 PUT /v1/projects/p/topics/aaa {}
        call 2000 PUT /v1/projects/p/topics/bbb {}
        < ok 0
        = 0
        "#,
    )
}

#[test]
fn a_fault_of_the_output_ends_a_report(rt: HostRuntime) -> Result<(), Fail> {
    transcript(
        rt.alloc(),
        r#"
        ! write 1
        $ check f
        call 1000 PUT /v1/projects/p/topics/aaa {}
        call 2000 PUT /v1/projects/p/topics/bbb {}
        2 write fault
        = 4
        ! write 1
        $ stat f
        call 1000 PUT /v1/projects/p/topics/aaa {}
        call 2000 PUT /v1/projects/p/topics/bbb {}
        2 write fault
        = 4
        ! write 2
        $ check f
        call 1000 PUT /v1/projects/p/topics/aaa {}
        call 2000 PUT /v1/projects/p/topics/bbb {}
        < ok 0
        = 0
        "#,
    )
}
