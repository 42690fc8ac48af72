ghost use Rattle.ps_history.specs.Acceptance.{AcceptsWhatIsRecorded, HistoriesLead};
ghost use Rattle.ps_core.specs.Counts.{CountsEntries};

/// Each accepted entry adds one to the count.
pub fn law_count()
    ensures { CountsEntries }
{}

/// An entry of a command that is built is accepted if and only if it is the entry that a call with its command and
/// moment would record.
pub fn law_accepted()
    ensures { AcceptsWhatIsRecorded }
{}

/// From the empty world entries lead to a world one by one if and only if they are a history of commands that are built,
/// and it is the live part of the world after that history.
pub fn law_history()
    ensures { HistoriesLead }
{}
