// What the definitions of a run say of one another.
ghost use Rattle.std.specs.Prelude.{◌≢◌};
ghost use Rattle.spqr_run.specs.Laws.{AskedIsPlanarBlock, FrontOfWhole, OneStatus, OneSummary, OneText, OneWork, NoRefusal};
ghost use Rattle.spqr_run.specs.Run.{CountsReads, CountsPuts};
ghost use Rattle.spqr_run.specs.declared.status.Status.{Status};

/// Decisions that are correct for the same words and bytes have one status and one text, a read that failed aside: the text as far as
/// the certificates are the same, which the definitions leave open, and the texts of commands that may have several. So each status of a
/// run comes exactly where it is required, and each report is the only correct one: blocks and trees are determined by the graph, and
/// the place of a fault in GML by the bytes.
/// Where the words name two files and both are accepted, no refusal is correct. Correct works are the same.
pub fn decisions()
    ensures status { OneStatus }
    ensures text { OneText }
    ensures accepted { NoRefusal }
    ensures work { OneWork }
{
    gml_text::laws::spelling();
}

/// After a failed put a prefix of the report on the first commands was written: it is one of the report on all, where each of the others has
/// an answer.
pub fn failed_writes()
    ensures { FrontOfWhole }
{}

/// For words that ask for a graph from a number its summary is the only correct decision, and there is one: the graph is one
/// block with a plane rotation system.
pub fn made_graphs()
    ensures summary { OneSummary }
    ensures planar { AskedIsPlanarBlock }
{}

/// A shelf whose count of faults stays at 0 is never the reason of a read fault, and such a sink never that of a write fault.
pub fn sure_devices()
    ensures reads { (status : Status) → CountsReads 0 0 status → status ≢ Status.ReadFault }
    ensures puts { (status : Status) → CountsPuts 0 0 status → status ≢ Status.WriteFault }
{}
