// The law on summaries: a function without a body, whose contract is the theorem.
ghost use Rattle.made_summary.specs.Laws.{SummaryIsUnique};

/// The law that a graph of one block has one summary at most: its tree is the only one, and so is the list of its plane rotation
/// systems.
pub fn summaries_are_unique()
    ensures { SummaryIsUnique }
{}
