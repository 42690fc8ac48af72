// Messages that one subscription less has.
ghost use Rattle.std.specs.Prelude.{◌≡◌, ◌<◌, false, nat_lt};
ghost use Rattle.std.specs.BTreeMap.{get_by, values};
ghost use Rattle.std.specs.Option.{option_map_or};
ghost use Rattle.std.specs.Ordering.{nat_cmp};
ghost use Rattle.ps_model.specs.Sound.{Ordered};
ghost use Rattle.ps_tables.specs.Releasing.{message_number, once, released, times};
ghost use Rattle.ps_tables.specs.Numbers.{IsNumbered};

use crate::tables::KeptMessage;
use ps_model::Mark;
use std::collections::BTreeMap;

/// One subscription less has these messages, which are named by their numbers. A message goes that none has any more.
pub fn release(messages: &mut BTreeMap<u64, KeptMessage>, marks: &[(u64, Mark)])
    requires numbered { IsNumbered message_number messages.old.entries }
    requires ordered { Ordered (λ a b. message_number a < message_number b) (values messages.old) }
    ensures numbered { IsNumbered message_number messages.new.entries }
    ensures values { values messages.new ≡ released (times marks.now) (values messages.old) }
{
    for mark in marks {
        release_one(messages, mark.0);
    }
}

fn release_one(messages: &mut BTreeMap<u64, KeptMessage>, number: u64)
    requires numbered { IsNumbered message_number messages.old.entries }
    requires ordered { Ordered (λ a b. message_number a < message_number b) (values messages.old) }
    ensures numbered { IsNumbered message_number messages.new.entries }
    ensures values { values messages.new ≡ released (once number) (values messages.old) }
{
    if has_another(messages, number) {
        if let Some(message) = messages.get_mut(&number) {
            message.holders -= 1;
        }
    } else {
        let _message = messages.remove(&number);
    }
}

/// Whether more than one subscription has the message.
fn has_another(messages: &BTreeMap<u64, KeptMessage>, number: u64) -> bool
    ensures { result ≡ option_map_or (λ x. nat_lt 1 x.holders) (get_by (nat_cmp number) messages.now) false }
{
    match messages.get(&number) {
        Some(message) => message.holders > 1,
        None => false,
    }
}
