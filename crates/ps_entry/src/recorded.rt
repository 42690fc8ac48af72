ghost use Rattle.std.specs.Prelude.{◌≡◌};
ghost use Rattle.ps_entry.specs.Commands.{has_tag, has_spelling};

use ps_model::{Command, is_normal};

/// Whether a command is recorded: it has a tag, and stands in the form in which it is recorded.
pub fn is_recorded(command: &Command) -> bool
    ensures { result ≡ has_spelling command.now }
{
    has_tag(command) && is_normal(command)
}

/// Whether a command has a tag. Those that only read have none, and an update names fields that its resource has.
fn has_tag(command: &Command) -> bool
    ensures { result ≡ has_tag command.now }
{
    match command {
        Command::UpdateTopic { mask, .. } => mask.is_of_topic(),
        Command::UpdateSubscription { mask, .. } => mask.is_of_sub(),
        Command::GetTopic { .. }
        | Command::GetSubscription { .. }
        | Command::GetSnapshot { .. }
        | Command::ListTopics { .. }
        | Command::ListTopicSubscriptions { .. }
        | Command::ListTopicSnapshots { .. }
        | Command::ListSubscriptions { .. }
        | Command::ListSnapshots { .. } => false,
        _ => true,
    }
}
