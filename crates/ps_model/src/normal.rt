ghost use Rattle.std.specs.Prelude.{◌≡◌};
ghost use Rattle.ps_model.specs.Checks.{is_normal, is_lease_normal};

use crate::command::Command;
use ps_config::{LEAST_ACK_SECONDS, MOST_ACK_SECONDS, is_masked_sub, is_masked_topic};
use ps_message::{MOST_BYTES, MOST_MESSAGES};

/// Whether a command is already in the form in which it is recorded: a pull asks for no more messages and bytes than
/// one may, and for seconds that a lease may live; an update has defaults in the fields that its mask doesn't name.
pub fn is_normal(command: &Command) -> bool
    ensures { result ≡ is_normal command.now }
{
    match command {
        Command::UpdateTopic { mask, config, .. } => is_masked_topic(config, *mask),
        Command::UpdateSubscription { mask, config, .. } => is_masked_sub(config, *mask),
        Command::Pull {
            max,
            budget,
            seconds,
            ..
        } => *max <= MOST_MESSAGES && *budget <= MOST_BYTES && is_lease_normal(*seconds),
        _ => true,
    }
}

fn is_lease_normal(seconds: Option<u32>) -> bool
    ensures { result ≡ is_lease_normal seconds }
{
    match seconds {
        Some(seconds) => LEAST_ACK_SECONDS <= seconds && seconds <= MOST_ACK_SECONDS,
        None => true,
    }
}
