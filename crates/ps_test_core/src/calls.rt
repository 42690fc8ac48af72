// Calls to a core. A line has the moment of a call and the name of its row. The answer is the code with what is told, what
// is recorded, and how many entries there are then. What the core records is given to a second one. `stat` and
// `due MOMENT` ask both, and `replay ROW` gives a row to the second one.
mod mixed;
mod texts;
mod transcripts;

use ps_base::OutOfMemory;
use ps_book::Machine;
use ps_core::Core;
use ps_transcript::{Case, bytes, cases, named, number};
use std::alloc::Global;
use std::process::Abort;
use std::test::Fail;
use texts::{Answer, Recorded, call, replayed, text_of_recorded, text_of_stat};

/// Rows by name. Only the commands of their entries are given, and `replay` alone looks at their moments. `pull-many` is what is
/// recorded of a pull that asks for more than one may, and that pull is given.
const ROWS: &str = r#"
tick 01 0000000000000000 01
topic 01 0000000000000000 02 00000015 "projects/p/topics/abc" 00000000 00
retained-topic 01 0000000000000000 02 00000015 "projects/p/topics/abc" 00000000 01 00000000000927c0
labelled-topic 01 0000000000000000 02 00000015 "projects/p/topics/abc" 00000001 00000001 "a" 00000001 "1" 00
update-topic 01 00000000000007d0 03 00000015 "projects/p/topics/abc" 00000001 00000001 00000001 "a" 00000001 "1" 00
update-topic-unmasked 01 00000000000007d0 03 00000015 "projects/p/topics/abc" 00000001 00000000 01 00000000000927c0
update-topic-no-mask 01 00000000000007d0 03 00000015 "projects/p/topics/abc" 00000000 00000000 00
update-topic-wide-mask 01 00000000000007d0 03 00000015 "projects/p/topics/abc" 00000005 00000001 00000001 "a" 00000001 "1" 00
delete-topic 01 00000000000007d0 04 00000015 "projects/p/topics/abc"
subscription 01 0000000000000000 05 0000001c "projects/p/subscriptions/sub" 00000015 "projects/p/topics/abc" 0000000a 00 00000000240c8400 00000000 00 01 000000009fa52400 00000000 00 00 00
filtered-subscription 01 0000000000000000 05 0000001c "projects/p/subscriptions/sub" 00000015 "projects/p/topics/abc" 0000000a 00 00000000240c8400 00000000 00 01 000000009fa52400 0000000c "attributes:a" 00 00 00
mixed-subscription 01 0000000000000000 05 0000001c "projects/p/subscriptions/sub" 00000015 "projects/p/topics/abc" 0000000a 00 00000000240c8400 00000000 00 01 000000009fa52400 0000002d "attributes:a" 20 "AND" 20 "attributes:b" 20 "OR" 20 "attributes:c" 00 00 00
update-subscription 01 00000000000007d0 06 0000001c "projects/p/subscriptions/sub" 00000001 00000014 00 00000000240c8400 00000000 00 01 000000009fa52400 00000000 00 00 00
update-subscription-unmasked 01 00000000000007d0 06 0000001c "projects/p/subscriptions/sub" 00000008 00000014 00 00000000240c8400 00000001 00000001 "a" 00000001 "1" 00 01 000000009fa52400 00000000 00 00 00
update-subscription-filter 01 00000000000007d0 06 0000001c "projects/p/subscriptions/sub" 00000001 00000014 00 00000000240c8400 00000000 00 01 000000009fa52400 0000000c "attributes:a" 00 00 00
delete-subscription 01 00000000000007d0 07 0000001c "projects/p/subscriptions/sub"
detach 01 00000000000007d0 08 0000001c "projects/p/subscriptions/sub"
publish-two 01 0000000000000000 0c 00000015 "projects/p/topics/abc" 00000002 00000001 "a" 00000000 00000000 00000001 "a" 00000000 00000000
pull-ten 01 0000000000000000 0d 0000001c "projects/p/subscriptions/sub" 0000000a 0000000000989680 00
pull-many 01 0000000000000000 0d 0000001c "projects/p/subscriptions/sub" 000003e8 0000000000989680 01 0000000a
pull-none 01 0000000000000000 0d 0000001c "projects/p/subscriptions/sub" 00000000 0000000000989680 00
acknowledge 01 0000000000000000 0e 0000001c "projects/p/subscriptions/sub" 00000001 0000000000000001 0000000000000001 0000000000000001
publish-one 01 0000000000000000 0c 00000015 "projects/p/topics/abc" 00000001 00000002 "hi" 00000000 00000000
publish-attribute 01 0000000000000000 0c 00000015 "projects/p/topics/abc" 00000001 00000000 00000001 00000001 "a" 00000001 "1" 00000000
publish-nothing 01 0000000000000000 0c 00000015 "projects/p/topics/abc" 00000001 00000000 00000000 00000000
publish 01 0000000000000000 0c 00000015 "projects/p/topics/abc"
pull-one 01 0000000000000000 0d 0000001c "projects/p/subscriptions/sub" 00000001 0000000000989680 00
acknowledge-none 01 0000000000000000 0e 0000001c "projects/p/subscriptions/sub" 00000000
tick-at-1000 01 00000000000003e8 01
"#;

/// The row of a name. Behind a name may stand a number: of so many messages with the payload `a`.
fn row(alloc: Global, words: &str) -> Result<Vec<u8>, Fail> {
    match words.split_once(' ') {
        Some((name, number)) => wide_row(alloc, name, number.parse::<u32>()?),
        None => bytes(alloc, named(ROWS, words)?),
    }
}

fn wide_row(alloc: Global, name: &str, number: u32) -> Result<Vec<u8>, Fail> {
    let mut row = bytes(alloc, named(ROWS, name)?)?;
    row.extend_from_slice(&number.to_be_bytes())?;
    for _ in 0..number {
        row.extend_from_slice(b"\0\0\0\x01a\0\0\0\0\0\0\0\0")?;
    }
    Ok(row)
}

fn text_of_answer(alloc: Global, answer: Answer, entries: u64) -> Result<String, OutOfMemory> {
    let recorded = text_of_recorded(alloc, answer.recorded)?;
    let reply = answer.reply.as_str();
    Ok(format!(in alloc; "{reply}, {recorded}, {entries} in all")?)
}

fn answer_to_call(
    core: &mut Core,
    copy: &mut Core,
    alloc: Global,
    now: u64,
    words: &str,
) -> Result<String, Fail> {
    let row = row(alloc, words)?;
    let answer = call(core, copy, alloc, now, row.as_slice())?.ok_or("no row")?;
    if core.count() != copy.count() {
        return Err(Fail::new("the cores differ in their entries"));
    }
    Ok(text_of_answer(alloc, answer, core.count())?)
}

fn answer_to_stat(alloc: Global, core: &Core, copy: &Core) -> Result<String, Fail> {
    if core.stat() != copy.stat() {
        return Err(Fail::new("the cores count differently"));
    }
    Ok(text_of_stat(alloc, core.stat())?)
}

fn answer_to_due(alloc: Global, core: &Core, copy: &Core, now: u64) -> Result<String, OutOfMemory> {
    let answer = match (core.is_due(now), copy.is_due(now)) {
        (true, true) => "yes",
        (false, false) => "no",
        _ => "the cores differ",
    };
    Ok(String::from_str(alloc, answer)?)
}

fn answer_to_replay(copy: &mut Core, alloc: Global, words: &str) -> Result<String, Fail> {
    let row = row(alloc, words)?;
    let recorded = replayed(copy, alloc, row.as_slice())?;
    Ok(text_of_recorded(alloc, recorded)?)
}

fn answer_to(core: &mut Core, copy: &mut Core, alloc: Global, asked: &str) -> Result<String, Fail> {
    let (first, rest) = asked.split_once(' ').unwrap_or((asked, ""));
    match first {
        "stat" => answer_to_stat(alloc, core, copy),
        "due" => Ok(answer_to_due(alloc, core, copy, number(rest)?)?),
        "replay" => answer_to_replay(copy, alloc, rest),
        _ => answer_to_call(core, copy, alloc, number(first)?, rest),
    }
}

fn expect(
    rt: &impl Abort,
    core: &mut Core,
    copy: &mut Core,
    alloc: Global,
    case: Case,
) -> Result<(), Fail> {
    let answer = answer_to(core, copy, alloc, case.asked)?;
    assert_eq!(rt; answer.as_str(), case.answer, "{}", case.asked);
    Ok(())
}

fn expect_each(
    rt: &impl Abort,
    core: &mut Core,
    copy: &mut Core,
    alloc: Global,
    transcript: &str,
) -> Result<(), Fail> {
    for case in cases(alloc, transcript)?.as_slice() {
        expect(rt, core, copy, alloc, *case)?;
    }
    Ok(())
}

fn expect_both(
    rt: &impl Abort,
    core: &mut Core,
    copy: &mut Core,
    alloc: Global,
    transcripts: (&str, &str),
) -> Result<(), Fail> {
    expect_each(rt, core, copy, alloc, transcripts.0)?;
    expect_each(rt, core, copy, alloc, transcripts.1)
}

/// Two transcripts, one behind the other, from the first entry on.
fn play(rt: &impl Abort, alloc: Global, transcripts: (&str, &str)) -> Result<(), Fail> {
    let mut core = Core::fresh(alloc)?;
    let mut copy = Core::new(alloc);
    let result = expect_both(rt, &mut core, &mut copy, alloc, transcripts);
    drop(core);
    drop(copy);
    result
}
