use super::*;
use ps_base as base;
use std::alloc::Global;
use std::test::Fail;

/// The number and the body of the only row.
fn only(rows: &[Row]) -> Option<(u64, &[u8])> {
    match rows {
        [row] => Some((row.seq, row.body.as_slice())),
        _ => None,
    }
}

fn replace_by(alloc: Global, keeper: &mut MemoryKeeper, body: &[u8]) -> Result<(), KeeperError> {
    let mut rows = base::List::new(alloc);
    rows.push(base::Octets::from_slice(alloc, body)?)?;
    keeper.replace(rows.as_slice())
}

/// Makes the call of this number: two appends, a reading, a replacing.
fn call(alloc: Global, keeper: &mut MemoryKeeper, number: u64) -> Result<(), KeeperError> {
    match number {
        1 => keeper.append(1, b"a"),
        2 => keeper.append(2, b"b"),
        3 => {
            keeper.rows(alloc, 0, 10)?;
            Ok(())
        }
        _ => replace_by(alloc, keeper, b"c"),
    }
}

/// The bodies of the log after each of four calls, with a mark before them if the call failed.
fn story(alloc: Global, keeper: &mut MemoryKeeper) -> Result<Vec<u8>, base::OutOfMemory> {
    let mut seen = Vec::new(alloc);
    for number in 1..5 {
        seen.push(if call(alloc, keeper, number).is_ok() {
            b' '
        } else {
            b'!'
        })?;
        for body in keeper.log() {
            seen.extend_from_slice(body.as_slice())?;
        }
    }
    Ok(seen)
}

#[test]
fn rows_are_appended_and_replaced(rt: HostRuntime) -> Result<(), Fail> {
    let alloc = rt.alloc();
    let mut keeper = MemoryKeeper::new(alloc);
    keeper.append(1, b"x")?;
    let rows = keeper.rows(alloc, 0, 10)?;
    assert_eq!(rt; only(rows.as_slice()), Some((1, b"x".as_slice())));
    replace_by(alloc, &mut keeper, b"y")?;
    let rows = keeper.rows(alloc, 0, 10)?;
    assert_eq!(rt; only(rows.as_slice()), Some((1, b"y".as_slice())));
    assert_eq!(rt; keeper.rows(alloc, 1, 10)?.len(), 0);
    Ok(())
}

#[test]
fn scripts_fail_the_calls_that_they_name(rt: HostRuntime) -> Result<(), Fail> {
    let alloc = rt.alloc();
    let table = [
        (1, When::Before, "! b b c"),
        (1, When::After, "!a ab ab c"),
        (2, When::Before, " a!a a c"),
        (2, When::After, " a!ab ab c"),
        (3, When::Before, " a ab!ab c"),
        (3, When::After, " a ab!ab c"),
        (4, When::Before, " a ab ab!ab"),
        (4, When::After, " a ab ab!c"),
    ];
    for (named, when, want) in table {
        let mut script = base::List::new(alloc);
        script.push((named, when))?;
        let mut keeper = MemoryKeeper::failing(alloc, script);
        assert_eq!(rt; story(alloc, &mut keeper)?.as_slice(), want.as_bytes());
        assert_eq!(rt; keeper.faults(), 1);
    }
    Ok(())
}

#[test]
fn a_reopened_keeper_has_the_log_and_no_fault(rt: HostRuntime) -> Result<(), Fail> {
    let alloc = rt.alloc();
    let mut script = base::List::new(alloc);
    script.push((1, When::After))?;
    script.push((2, When::Before))?;
    let mut keeper = MemoryKeeper::failing(alloc, script);
    assert_eq!(rt; keeper.append(1, b"a"), Err(KeeperError::Failed));
    assert_eq!(rt; keeper.append(2, b"b"), Err(KeeperError::Failed));
    assert_eq!(rt; keeper.faults(), 2);
    let mut again = keeper.reopened();
    assert_eq!(rt; again.faults(), 0);
    let rows = again.rows(alloc, 0, 10)?;
    assert_eq!(rt; only(rows.as_slice()), Some((1, b"a".as_slice())));
    Ok(())
}
