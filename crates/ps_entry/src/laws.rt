ghost use Rattle.ps_entry.specs.Entries.{ReadsBack, ReadsNothingElse};

/// An entry is read back from its bytes, and from no other bytes.
pub fn law_entries()
    ensures back { ReadsBack }
    ensures nothing_else { ReadsNothingElse }
{}
