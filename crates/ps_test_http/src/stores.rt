//! Logs in memory that fail, written as texts: in `2:before,4:after` the calls 2 and 4 of the log fail, the one before it
//! stores and the other after that. Calls are counted from 1.
ghost use Rattle.std.specs.Prelude.{◌≡◌, [], IfOk};

use ps_base::List;
use ps_keeper::{MemoryKeeper, When};
use ps_transcript::number;
use std::alloc::Global;
use std::test::Fail;

/// The empty log with the faults of a text.
pub fn keeper_of(alloc: Global, text: &str) -> Result<MemoryKeeper, Fail>
    ensures empty { IfOk result (λ keeper. keeper.log ≡ []) }
    ensures unfailed { IfOk result (λ keeper. keeper.faults ≡ 0) }
{
    let mut script = List::new(alloc);
    for fault in text.split(',') {
        script.push(fault_of(fault)?)?;
    }
    Ok(MemoryKeeper::failing(alloc, script))
}

fn fault_of(text: &str) -> Result<(u64, When), Fail> {
    let (call, when) = text
        .split_once(':')
        .ok_or("a fault is a call and `before` or `after`")?;
    let call = number(call)?;
    match when {
        "before" => Ok((call, When::Before)),
        "after" => Ok((call, When::After)),
        _ => Err(Fail::new("a fault comes before a call stores or after that")),
    }
}
