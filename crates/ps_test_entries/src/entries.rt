// The rows of entries: what was written is read again, and nothing else is read.
mod texts;

use ps_base::OutOfMemory;
use ps_transcript::{Case, bytes, cases, named};
use std::alloc::Global;
use std::process::Abort;
use std::test::Fail;
use texts::{is_entry, is_written_again, text_of_copied_row, text_of_row};

/// Rows by name. A subscription and a pull stand with all that may be left out, and without.
const ROWS: &str = r#"
tick 01 00000000000003e8 01
last-tick 01 ffffffffffffffff 01
topic 01 00000000000003e8 02 00000015 "projects/p/topics/abc" 00000000 00
full-topic 01 0000e677d21fdbff 02 00000015 "projects/p/topics/abc" 00000002 00000001 "a" 00000001 "1" 00000002 "bc" 00000000 01 00000000000927c0
update-topic 01 00000000000003e8 03 00000015 "projects/p/topics/abc" 00000001 00000002 00000001 "a" 00000001 "1" 00000002 "bc" 00000000 00
update-retention 01 00000000000003e8 03 00000015 "projects/p/topics/abc" 00000002 00000000 01 00000000000927c0
update-whole-topic 01 00000000000003e8 03 00000015 "projects/p/topics/abc" 00000003 00000000 00
delete-topic 01 00000000000003e8 04 00000015 "projects/p/topics/abc"
subscription 01 00000000000003e8 05 0000001c "projects/p/subscriptions/abc" 00000015 "projects/p/topics/abc" 0000000a 00 00000000240c8400 00000000 01 00 00000000 00 00 01
full-subscription 01 00000000000003e8 05 0000001c "projects/p/subscriptions/abc" 00000015 "projects/p/topics/abc" 00000258 01 00000000240c8400 00000002 00000001 "a" 00000001 "1" 00000002 "bc" 00000000 00 01 000000009fa52400 0000000c "attributes:a" 01 00000016 "projects/p/topics/dead" 00000005 01 0000000000002710 000000000000ea60 01
update-seconds 01 00000000000003e8 06 0000001c "projects/p/subscriptions/abc" 00000001 00000258 00 00000000240c8400 00000000 00 01 000000009fa52400 00000000 00 00 00
update-labels 01 00000000000003e8 06 0000001c "projects/p/subscriptions/abc" 00000008 0000000a 00 00000000240c8400 00000002 00000001 "a" 00000001 "1" 00000002 "bc" 00000000 00 01 000000009fa52400 00000000 00 00 00
update-push 01 00000000000003e8 06 0000001c "projects/p/subscriptions/abc" 00000100 0000000a 00 00000000240c8400 00000000 00 01 000000009fa52400 00000000 00 00 00
update-whole-subscription 01 00000000000003e8 06 0000001c "projects/p/subscriptions/abc" 000001ff 00000258 01 00000000240c8400 00000002 00000001 "a" 00000001 "1" 00000002 "bc" 00000000 00 00 00000000 01 00000016 "projects/p/topics/dead" 00000005 01 0000000000002710 000000000000ea60 01
delete-subscription 01 00000000000003e8 07 0000001c "projects/p/subscriptions/abc"
detach 01 00000000000003e8 08 0000001c "projects/p/subscriptions/abc"
create-snapshot 01 00000000000003e8 09 00000018 "projects/p/snapshots/abc" 0000001c "projects/p/subscriptions/abc" 00000000
create-labelled-snapshot 01 00000000000003e8 09 00000018 "projects/p/snapshots/abc" 0000001c "projects/p/subscriptions/abc" 00000002 00000001 "a" 00000001 "1" 00000002 "bc" 00000000
update-snapshot 01 00000000000003e8 0a 00000018 "projects/p/snapshots/abc" 00000002 00000001 "a" 00000001 "1" 00000002 "bc" 00000000
delete-snapshot 01 00000000000003e8 0b 00000018 "projects/p/snapshots/abc"
publish 01 00000000000003e8 0c 00000015 "projects/p/topics/abc" 00000002 00000002 "hi" 00000002 00000001 "a" 00000002 "é" 00000002 "bc" 00000000 00000001 "k" 00000001 ff 00000000 00000000
pull 01 00000000000003e8 0d 0000001c "projects/p/subscriptions/abc" 00000064 0000000000989680 00
pull-with-seconds 01 00000000000003e8 0d 0000001c "projects/p/subscriptions/abc" 00000064 0000000000989680 01 00000258
most-pulled 01 00000000000003e8 0d 0000001c "projects/p/subscriptions/abc" 000003e8 0000000000989680 01 0000000a
acknowledge 01 00000000000003e8 0e 0000001c "projects/p/subscriptions/abc" 00000002 0000000000000001 0000000000000002 0000000000000003 ffffffffffffffff 0000000000000100 0000000000000000
modify 01 00000000000003e8 0f 0000001c "projects/p/subscriptions/abc" 00000002 0000000000000001 0000000000000002 0000000000000003 00000000 ffffffffffffffff 0000000000000100 0000000000000000 00000258
seek-time 01 00000000000003e8 10 0000001c "projects/p/subscriptions/abc" 0000e677d21fdbff
seek-snapshot 01 00000000000003e8 11 0000001c "projects/p/subscriptions/abc" 00000018 "projects/p/snapshots/abc"
"#;

/// What the rows spell.
const ENTRIES: &str = r#"
> tick
< 1000 tick
> last-tick
< 18446744073709551615 tick
> topic
< 1000 projects/p/topics/abc {} None
> full-topic
< 253402300799999 projects/p/topics/abc {a=1;bc=;} Some(600000)
> subscription
< 1000 projects/p/subscriptions/abc projects/p/topics/abc 10 false 604800000 {} true None "" none none true
> full-subscription
< 1000 projects/p/subscriptions/abc projects/p/topics/abc 600 true 604800000 {a=1;bc=;} false Some(2678400000) "attributes:a" projects/p/topics/dead 5 10000 60000 true
> publish
< 1000 projects/p/topics/abc [104, 105] {a=é;bc=;} "k" [255] {} ""
> pull
< 1000 projects/p/subscriptions/abc 100 10000000 None
> pull-with-seconds
< 1000 projects/p/subscriptions/abc 100 10000000 Some(600)
> acknowledge
< 1000 projects/p/subscriptions/abc 1/2/3 18446744073709551615/256/0
> update-topic
< 1000 projects/p/topics/abc update 1 {a=1;bc=;} None
> update-retention
< 1000 projects/p/topics/abc update 2 {} Some(600000)
> update-whole-topic
< 1000 projects/p/topics/abc update 3 {} None
> delete-topic
< 1000 projects/p/topics/abc delete
> update-seconds
< 1000 projects/p/subscriptions/abc update 1 600 false 604800000 {} false Some(2678400000) "" none none false
> update-labels
< 1000 projects/p/subscriptions/abc update 8 10 false 604800000 {a=1;bc=;} false Some(2678400000) "" none none false
> update-push
< 1000 projects/p/subscriptions/abc update 256 10 false 604800000 {} false Some(2678400000) "" none none false
> update-whole-subscription
< 1000 projects/p/subscriptions/abc update 511 600 true 604800000 {a=1;bc=;} false None "" projects/p/topics/dead 5 10000 60000 true
> delete-subscription
< 1000 projects/p/subscriptions/abc delete
> detach
< 1000 projects/p/subscriptions/abc detach
> create-snapshot
< 1000 projects/p/snapshots/abc projects/p/subscriptions/abc {}
> create-labelled-snapshot
< 1000 projects/p/snapshots/abc projects/p/subscriptions/abc {a=1;bc=;}
> update-snapshot
< 1000 projects/p/snapshots/abc update {a=1;bc=;}
> delete-snapshot
< 1000 projects/p/snapshots/abc delete
> most-pulled
< 1000 projects/p/subscriptions/abc 1000 10000000 Some(10)
> modify
< 1000 projects/p/subscriptions/abc 1/2/3/0 18446744073709551615/256/0/600
> seek-time
< 1000 projects/p/subscriptions/abc seek 253402300799999
> seek-snapshot
< 1000 projects/p/subscriptions/abc seek projects/p/snapshots/abc
"#;

/// Rows with another byte at a place.
const CHANGED: &str = r#"
# Another format, and other tags.
> topic 0 00
> topic 0 02
> topic 9 00
> topic 9 03
> topic 9 05
> full-topic 9 0c
> tick 9 00
> tick 9 12
> delete-topic 9 07
> delete-subscription 9 12
> delete-snapshot 9 04
> seek-time 9 11
# A count that is more or less, and a flag that is neither 00 nor 01.
> topic 38 01
> topic 39 02
> subscription 71 02
> subscription 84 02
> subscription 85 02
> subscription 90 02
> subscription 91 02
> subscription 92 02
> publish 38 01
> publish 38 03
> pull 54 02
> acknowledge 45 01
> acknowledge 45 03
# A mask that names nothing, or what isn't there, or not a field that is set.
> update-topic 38 00
> update-topic 38 02
> update-topic 38 05
> update-topic 35 01
> update-retention 38 01
> update-seconds 45 00
> update-seconds 45 02
> update-seconds 44 02
> update-labels 45 04
> update-push 44 00
> update-whole-subscription 45 fe
# Ordering is no field of an update.
> update-whole-subscription 83 01
# More messages, bytes or seconds than a pull may ask for, and fewer seconds.
> most-pulled 45 e9
> most-pulled 53 81
> most-pulled 58 09
> pull-with-seconds 58 59
# A name outside its grammar, keys that don't ascend, and texts that aren't UTF-8.
> full-topic 32 2f
> subscription 39 2f
> subscription 64 2f
> full-subscription 153 2f
> full-topic 43 63
> full-topic 48 ff
> full-subscription 118 ff
> publish 58 61
> publish 74 ff
< none
"#;

/// Rows that are cut short, have a byte more, or whose lengths, names, labels or settings are wrong.
const OTHERS: &str = r#"
> ""
> 01
> 01 00000000000003e8
> 01 00000000000003e8 01 00
> 01 00000000000003e8 02 00000014 "projects/p/topics/ab" 00000000 00
> 01 00000000000003e8 02 0000001c "projects/p/subscriptions/abc" 00000000 00
> 01 00000000000003e8 02 00000015 "projects/p/topics/abc" 00000002 00000001 "a" 00000000 00000001 "a" 00000001 "1" 00
> 01 00000000000003e8 02 00000015 "projects/p/topics/abc" 00000002 00000001 "b" 00000000 00000001 "a" 00000001 "1" 00
> 01 00000000000003e8 02 00000015 "projects/p/topics/abc" 00000002 00000002 "ab" 00000000 00000001 "a" 00000000 00
> 01 00000000000003e8 02 ffffffff "projects/p/topics/abc" 00000000 00
> 01 00000000000003e8 02 00000015 "projects/p/topics/abc" ffffffff 00
> 01 00000000000003e8 0c 00000015 "projects/p/topics/abc" ffffffff
> 01 00000000000003e8 0e 0000001c "projects/p/subscriptions/abc" ffffffff 00000000 00000001 00000000 00000002 00000000 00000003
# Masks that name nothing, or what isn't there.
> 01 00000000000003e8 03 00000015 "projects/p/topics/abc" 00000000 00000000 00
> 01 00000000000003e8 03 00000015 "projects/p/topics/abc" 00000004 00000000 00
> 01 00000000000003e8 06 0000001c "projects/p/subscriptions/abc" 00000000 0000000a 00 00000000240c8400 00000000 00 01 000000009fa52400 00000000 00 00 00
> 01 00000000000003e8 06 0000001c "projects/p/subscriptions/abc" 00000200 0000000a 00 00000000240c8400 00000000 00 01 000000009fa52400 00000000 00 00 00
> 01 00000000000003e8 06 0000001c "projects/p/subscriptions/abc" 80000001 00000258 00 00000000240c8400 00000000 00 01 000000009fa52400 00000000 00 00 00
# Fields that the mask doesn't name, and ordering and the filter always.
> 01 00000000000003e8 03 00000015 "projects/p/topics/abc" 00000001 00000000 01 00000000000927c0
> 01 00000000000003e8 03 00000015 "projects/p/topics/abc" 00000002 00000001 00000001 "a" 00000001 "1" 00
> 01 00000000000003e8 06 0000001c "projects/p/subscriptions/abc" 000001fe 0000000b 00 00000000240c8400 00000000 00 01 000000009fa52400 00000000 00 00 00
> 01 00000000000003e8 06 0000001c "projects/p/subscriptions/abc" 000001fd 0000000a 01 00000000240c8400 00000000 00 01 000000009fa52400 00000000 00 00 00
> 01 00000000000003e8 06 0000001c "projects/p/subscriptions/abc" 000001fb 0000000a 00 00000000000927c0 00000000 00 01 000000009fa52400 00000000 00 00 00
> 01 00000000000003e8 06 0000001c "projects/p/subscriptions/abc" 000001f7 0000000a 00 00000000240c8400 00000001 00000001 "a" 00000001 "1" 00 01 000000009fa52400 00000000 00 00 00
> 01 00000000000003e8 06 0000001c "projects/p/subscriptions/abc" 000001ef 0000000a 00 00000000240c8400 00000000 00 00 00000000 00 00 00
> 01 00000000000003e8 06 0000001c "projects/p/subscriptions/abc" 000001ef 0000000a 00 00000000240c8400 00000000 00 01 0000000005265c00 00000000 00 00 00
> 01 00000000000003e8 06 0000001c "projects/p/subscriptions/abc" 000001df 0000000a 00 00000000240c8400 00000000 00 01 000000009fa52400 00000000 01 00000016 "projects/p/topics/dead" 00000005 00 00
> 01 00000000000003e8 06 0000001c "projects/p/subscriptions/abc" 000001bf 0000000a 00 00000000240c8400 00000000 00 01 000000009fa52400 00000000 00 01 0000000000000000 0000000000000000 00
> 01 00000000000003e8 06 0000001c "projects/p/subscriptions/abc" 0000017f 0000000a 00 00000000240c8400 00000000 00 01 000000009fa52400 00000000 00 00 01
> 01 00000000000003e8 06 0000001c "projects/p/subscriptions/abc" 000001ff 0000000a 00 00000000240c8400 00000000 01 01 000000009fa52400 00000000 00 00 00
> 01 00000000000003e8 06 0000001c "projects/p/subscriptions/abc" 000001ff 0000000a 00 00000000240c8400 00000000 00 01 000000009fa52400 0000000c "attributes:a" 00 00 00
# More messages, bytes or seconds than a pull may ask for, and fewer seconds.
> 01 00000000000003e8 0d 0000001c "projects/p/subscriptions/abc" 000003e9 0000000000989680 00
> 01 00000000000003e8 0d 0000001c "projects/p/subscriptions/abc" 00000064 0000000000989681 00
> 01 00000000000003e8 0d 0000001c "projects/p/subscriptions/abc" 00000064 0000000000989680 01 00000009
> 01 00000000000003e8 0d 0000001c "projects/p/subscriptions/abc" 00000064 0000000000989680 01 00000259
# A tag that no command has.
> 01 00000000000003e8 12
> 01 00000000000003e8 12 0000001c "projects/p/subscriptions/abc"
< none
"#;

/// Whether a row with a byte more or less spells nothing.
fn is_none_but_whole(alloc: Global, row: &[u8]) -> Result<bool, OutOfMemory> {
    let mut longer = Vec::from_slice(alloc, row)?;
    longer.push(0)?;
    if is_entry(alloc, longer.as_slice())? {
        return Ok(false);
    }
    for len in 0..row.len() {
        if is_entry(alloc, &row[..len])? {
            return Ok(false);
        }
    }
    Ok(true)
}

fn expect_text(rt: &impl Abort, text: String, case: Case) {
    assert_eq!(rt; text.as_str(), case.answer, "{}", case.asked);
}

/// A row is read, copied and written again, and with a byte more or less it is none.
fn expect_entry(rt: &impl Abort, alloc: Global, case: Case) -> Result<(), Fail> {
    let row = bytes(alloc, named(ROWS, case.asked)?)?;
    let row = row.as_slice();
    expect_text(rt, text_of_row(alloc, row)?, case);
    expect_text(rt, text_of_copied_row(alloc, row)?, case);
    assert!(rt; is_written_again(alloc, row)?, "{}", case.asked);
    assert!(rt; is_none_but_whole(alloc, row)?, "{}", case.asked);
    Ok(())
}

/// The row of a name, a place in it, and the byte that is to stand there.
fn changed(alloc: Global, asked: &str) -> Result<Vec<u8>, Fail> {
    let (name, change) = asked.split_once(' ').ok_or("no place")?;
    let (place, byte) = change.split_once(' ').ok_or("no byte")?;
    let mut row = bytes(alloc, named(ROWS, name)?)?;
    let byte = u8::from_str_radix(byte, 16)?;
    let place = row.get_mut(place.parse::<usize>()?).ok_or("no such place")?;
    *place = byte;
    Ok(row)
}

fn expect_changed(rt: &impl Abort, alloc: Global, case: Case) -> Result<(), Fail> {
    let row = changed(alloc, case.asked)?;
    expect_text(rt, text_of_row(alloc, row.as_slice())?, case);
    Ok(())
}

fn expect_other(rt: &impl Abort, alloc: Global, case: Case) -> Result<(), Fail> {
    let row = bytes(alloc, case.asked)?;
    expect_text(rt, text_of_row(alloc, row.as_slice())?, case);
    Ok(())
}

#[test]
fn entries_are_read_and_written(rt: HostRuntime) -> Result<(), Fail> {
    let alloc = rt.alloc();
    for case in cases(alloc, ENTRIES)?.as_slice() {
        expect_entry(&rt, alloc, *case)?;
    }
    Ok(())
}

#[test]
fn another_byte_is_no_entry(rt: HostRuntime) -> Result<(), Fail> {
    let alloc = rt.alloc();
    for case in cases(alloc, CHANGED)?.as_slice() {
        expect_changed(&rt, alloc, *case)?;
    }
    Ok(())
}

#[test]
fn other_rows_are_no_entries(rt: HostRuntime) -> Result<(), Fail> {
    let alloc = rt.alloc();
    for case in cases(alloc, OTHERS)?.as_slice() {
        expect_other(&rt, alloc, *case)?;
    }
    Ok(())
}
