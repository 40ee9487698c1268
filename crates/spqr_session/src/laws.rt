// What the definitions of a session say of one another.
ghost use Rattle.spqr_session.specs.Laws.{EachHasAnswer, GmlIsReadBack, MembersAreCounted, OneAnswer, OneClosedReport, OneReport, OneStart, OneStartFault, ReportGoesOn, StartHasNoFault, StepKeepsState};

/// Each command has an answer in each state, but for those that may lack one, and one state after it, in which each planar block
/// has a plane rotation system again. A command that leaves no text open has one answer only.
pub fn answers()
    ensures each { EachHasAnswer }
    ensures one { OneAnswer }
    ensures keeps { StepKeepsState }
{}

/// On a setting there is one state at the start, and there is one report on each list of commands, as far as reports agree on the
/// texts that commands leave open; where no command leaves one open, there is one report. A report on the first commands is the
/// beginning of one on all.
pub fn reports()
    ensures start { OneStart }
    ensures report { OneReport }
    ensures closed { OneClosedReport }
    ensures more { ReportGoesOn }
{}

/// The length of the list of a block is a product: (n - 1)! for each bond of n items that is not locked, and 2 for each
/// triconnected node that is not locked.
pub fn counts()
    ensures { MembersAreCounted }
{}

/// There is one fault of a start, with one set of numbers, and none where a session starts.
pub fn starts()
    ensures one { OneStartFault }
    ensures none { StartHasNoFault }
{}

/// In the document that `gml` writes the same graph is read, with a start at which a session has the present rotation systems.
pub fn read_back()
    ensures { GmlIsReadBack }
{}
