// The run of the program, over any shelf and sink: a report of a graph and a script, or the summary of a graph that is made from
// a number.
//
// The graph is a multigraph without loops whose nodes have ids; the script measures rotation systems of it by Euler's sum and
// writes the document back. The report is the head, which lists the vertices, cut vertices and blocks, and then one answer for
// each command. A session is a machine: its setting is what the graph file says and stays, its state is what commands change,
// and each command is one step, from the state before to a text and the state after; a report is the head and the texts of a
// chain of steps from a start.
//
// `run` is the whole program over any shelf and sink. It decides first: the form of the words, then the graph file, then the
// script file, each taken to its end within its limit. Then it writes the report of both files' whole contents, the summary that
// was asked for, or the one line that says why it is refused, and its status says which. Its contract promises that the decision
// is correct for some bytes, which are the contents wherever the shelf makes them known, that just its text is written (a prefix of it,
// where a put fails; whole first texts of a report, where memory runs out), and that faults of the words, the shelf and the sink
// come exactly where they are required. The program, spqr_cli, only joins `run` to the real files and
// the standard output.
#![tactic(auto)]

mod decision;
mod halt;
pub mod laws;
mod methods;
mod reading;
mod refusal;
pub mod run;
mod stages;
pub mod status;
mod writing;
