//! Faults of the store, of its rows and of the streams.

use crate::service::Service;
use crate::tests::transcripts::transcript;
use ps_base::{List, Octets};
use ps_edge::{MemorySink, MemorySource};
use ps_keeper::{Keeper, KeeperError, Row};
use ps_run::{Status, batch_keeper};
use std::alloc::Global;
use std::test::Fail;

/// The keeper's calls in a run of three lines: 1 reads the empty log, 2 appends `aaa`, 3 appends `bbb`. A fault puts
/// the calls of a reload behind it: one for each page that has rows, and one that finds nothing more.
#[test]
fn a_fault_of_the_store_is_a_lines_answer(rt: HostRuntime) -> Result<(), Fail> {
    transcript(
        rt.alloc(),
        r#"
        store f 2:before
        $ batch f
        call 1000 PUT /v1/projects/p/topics/aaa {}
        refuses 503 UNAVAILABLE store fault
        call 1000 PUT /v1/projects/p/topics/aaa {}
        gives {"name":"projects/p/topics/aaa"}
        call 1000 PUT /v1/projects/p/topics/bbb {}
        gives {"name":"projects/p/topics/bbb"}
        = 0
        log f 2
        store f 2:after
        $ batch f
        call 1000 PUT /v1/projects/p/topics/aaa {}
        refuses 503 UNAVAILABLE store fault
        call 1000 PUT /v1/projects/p/topics/aaa {}
        refuses 409 ALREADY_EXISTS projects/p/topics/aaa
        call 1000 PUT /v1/projects/p/topics/bbb {}
        gives {"name":"projects/p/topics/bbb"}
        = 0
        log f 2
        store f 3:before
        $ batch f
        call 1000 PUT /v1/projects/p/topics/aaa {}
        gives {"name":"projects/p/topics/aaa"}
        call 1000 PUT /v1/projects/p/topics/aaa {}
        refuses 409 ALREADY_EXISTS projects/p/topics/aaa
        call 1000 PUT /v1/projects/p/topics/bbb {}
        refuses 503 UNAVAILABLE store fault
        = 0
        log f 1
        store f 3:after
        $ batch f
        call 1000 PUT /v1/projects/p/topics/aaa {}
        gives {"name":"projects/p/topics/aaa"}
        call 1000 PUT /v1/projects/p/topics/aaa {}
        refuses 409 ALREADY_EXISTS projects/p/topics/aaa
        call 1000 PUT /v1/projects/p/topics/bbb {}
        refuses 503 UNAVAILABLE store fault
        = 0
        log f 2
        store f 2:before 3:before
        $ batch f
        call 1000 PUT /v1/projects/p/topics/aaa {}
        refuses 503 UNAVAILABLE store fault
        call 1000 PUT /v1/projects/p/topics/aaa {}
        refuses 503 UNAVAILABLE store fault
        call 1000 PUT /v1/projects/p/topics/bbb {}
        gives {"name":"projects/p/topics/bbb"}
        = 0
        log f 1
        store f 2:after 4:before
        $ batch f
        call 1000 PUT /v1/projects/p/topics/aaa {}
        refuses 503 UNAVAILABLE store fault
        call 1000 PUT /v1/projects/p/topics/aaa {}
        refuses 503 UNAVAILABLE store fault
        call 1000 PUT /v1/projects/p/topics/bbb {}
        gives {"name":"projects/p/topics/bbb"}
        = 0
        log f 2
        "#,
    )
}

#[test]
fn a_fault_at_the_opening_ends_the_run(rt: HostRuntime) -> Result<(), Fail> {
    transcript(
        rt.alloc(),
        r#"
        store f 1:before
        $ batch f
        call 1000 PUT /v1/projects/p/topics/aaa {}
        2 store fault
        = 5
        $ batch f
        call 1000 PUT /v1/projects/p/topics/aaa {}
        gives {"name":"projects/p/topics/aaa"}
        = 0
        "#,
    )
}

/// The row that ends with `01` is a tick at 1000, the other one creates a topic then.
#[test]
fn a_bad_row_ends_the_opening(rt: HostRuntime) -> Result<(), Fail> {
    transcript(
        rt.alloc(),
        r#"
        rows f \x01\x00\x00\x00\x00\x00\x00\x03\xe8\x01 \x01\x00\x00\x00\x00\x00\x00\x03\xe8\x02\x00\x00\x00\x15projects/p/topics/abc\x00\x00\x00\x00\x00
        $ batch f
        call 1000 PUT /v1/projects/p/topics/aaa {}
        2 bad row 1
        = 6
        log f 2
        rows f \xff \x01\x00\x00\x00\x00\x00\x00\x03\xe8\x02\x00\x00\x00\x15projects/p/topics/abc\x00\x00\x00\x00\x00
        $ batch f
        call 1000 PUT /v1/projects/p/topics/aaa {}
        2 bad row 1
        = 6
        log f 2
        rows f \x01\x00\x00\x00\x00\x00\x00\x03\xe8\x02\x00\x00\x00\x15projects/p/topics/abc\x00\x00\x00\x00\x00 \x01\x00\x00\x00\x00\x00\x00\x03\xe8\x01
        $ batch f
        call 1000 PUT /v1/projects/p/topics/aaa {}
        2 bad row 2
        = 6
        log f 2
        rows f \x01\x00\x00\x00\x00\x00\x00\x03\xe8\x02\x00\x00\x00\x15projects/p/topics/abc\x00\x00\x00\x00\x00 \x01\x00\x00\x00\x00\x00\x00\x03\xe8\x02\x00\x00\x00\x15projects/p/topics/abc\x00\x00\x00\x00\x00
        $ batch f
        call 1000 PUT /v1/projects/p/topics/aaa {}
        2 bad row 2
        = 6
        log f 2
        "#,
    )
}

/// The first read takes all bytes, the second finds the end. Each answer is one write.
#[test]
fn faults_of_the_streams_end_the_run(rt: HostRuntime) -> Result<(), Fail> {
    transcript(
        rt.alloc(),
        r#"
        ! read 1
        $ batch -
        call 1000 PUT /v1/projects/p/topics/aaa {}
        call 1000 PUT /v1/projects/p/topics/aaa {}
        call 1000 PUT /v1/projects/p/topics/bbb {}
        2 read fault
        = 3
        ! read 2
        $ batch -
        call 1000 PUT /v1/projects/p/topics/aaa {}
        gives {"name":"projects/p/topics/aaa"}
        call 1000 PUT /v1/projects/p/topics/aaa {}
        refuses 409 ALREADY_EXISTS projects/p/topics/aaa
        call 1000 PUT /v1/projects/p/topics/bbb {}
        gives {"name":"projects/p/topics/bbb"}
        2 read fault
        = 3
        ! read 3
        $ batch -
        call 1000 PUT /v1/projects/p/topics/aaa {}
        gives {"name":"projects/p/topics/aaa"}
        call 1000 PUT /v1/projects/p/topics/aaa {}
        refuses 409 ALREADY_EXISTS projects/p/topics/aaa
        call 1000 PUT /v1/projects/p/topics/bbb {}
        gives {"name":"projects/p/topics/bbb"}
        = 0
        ! write 1
        $ batch -
        call 1000 PUT /v1/projects/p/topics/aaa {}
        call 1000 PUT /v1/projects/p/topics/aaa {}
        call 1000 PUT /v1/projects/p/topics/bbb {}
        2 write fault
        = 4
        ! write 2
        $ batch -
        call 1000 PUT /v1/projects/p/topics/aaa {}
        gives {"name":"projects/p/topics/aaa"}
        call 1000 PUT /v1/projects/p/topics/aaa {}
        call 1000 PUT /v1/projects/p/topics/bbb {}
        2 write fault
        = 4
        ! write 3
        $ batch -
        call 1000 PUT /v1/projects/p/topics/aaa {}
        gives {"name":"projects/p/topics/aaa"}
        call 1000 PUT /v1/projects/p/topics/aaa {}
        refuses 409 ALREADY_EXISTS projects/p/topics/aaa
        call 1000 PUT /v1/projects/p/topics/bbb {}
        2 write fault
        = 4
        ! write 4
        $ batch -
        call 1000 PUT /v1/projects/p/topics/aaa {}
        gives {"name":"projects/p/topics/aaa"}
        call 1000 PUT /v1/projects/p/topics/aaa {}
        refuses 409 ALREADY_EXISTS projects/p/topics/aaa
        call 1000 PUT /v1/projects/p/topics/bbb {}
        gives {"name":"projects/p/topics/bbb"}
        = 0

        # The status stays if its text can't be written.
        ! error 1
        $ batch
        = 2
        "#,
    )
}

const TOPIC_ROW: &[u8] = b"\x01\0\0\0\0\0\0\x03\xe8\x02\0\0\0\x15projects/p/topics/abc\0\0\0\0\0";

/// A keeper whose one row has the number 2. Its log isn't known.
#[derive(Drop)]
struct Skewed;

impl Keeper for Skewed {
    ghost use Rattle.std.specs.Prelude.{false, None};

    ghost known = { λ _. false };

    ghost log = { λ _. None };

    ghost may_leave = { λ _ _. Unit {0} };

    ghost faults = { λ _. 0 };

    fn append(&mut self, _seq: u64, _body: &[u8]) -> Result<(), KeeperError> {
        Ok(())
    }

    fn replace(&mut self, _rows: &[Octets]) -> Result<(), KeeperError> {
        Ok(())
    }

    fn rows(&mut self, alloc: Global, _after: u64, _most: u32) -> Result<List<Row>, KeeperError> {
        let mut rows = List::new(alloc);
        rows.push(Row {
            seq: 2,
            body: Octets::from_slice(alloc, TOPIC_ROW)?,
        })?;
        Ok(rows)
    }
}

#[test]
fn a_row_out_of_sequence_is_bad(rt: HostRuntime) -> Result<(), Fail> {
    let alloc = rt.alloc();
    let mut input = MemorySource::new(Octets::from_slice(alloc, b"")?, List::new(alloc));
    let mut output = MemorySink::new(alloc, List::new(alloc));
    let ended = batch_keeper::<Service, Skewed, MemorySource, MemorySink>(
        alloc,
        Skewed,
        &mut input,
        &mut output,
    );
    assert!(rt; ended.status == Status::BadRow { seq: 1 });
    Ok(())
}
