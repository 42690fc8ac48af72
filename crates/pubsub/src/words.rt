ghost use Rattle.std.specs.Prelude.{◌≡◌, option_map};
ghost use Rattle.pubsub.specs.Words.{task_of, texts, request_in};

use ps_run::Report;

/// What a command does with the log of its file.
#[derive(Clone, Copy)]
pub enum Task {
    /// Answers each line of the input.
    Batch,
    /// Prints a report, and changes nothing.
    Print(Report),
}

fn task_of(verb: &str) -> Option<Task>
    ensures { result ≡ task_of verb.now }
{
    match verb {
        "batch" => Some(Task::Batch),
        "check" => Some(Task::Print(Report::Check)),
        "stat" => Some(Task::Print(Report::Stat)),
        _ => None,
    }
}

/// The task that the words ask for, and its file.
pub fn request_of(words: &[String]) -> Option<(Task, &str)>
    ensures { option_map (λ it. (it.0, it.1.now)) result ≡ request_in (texts words.now) }
{
    match words {
        [verb, file] if !file.is_empty() => Some((task_of(verb.as_str())?, file.as_str())),
        _ => None,
    }
}
