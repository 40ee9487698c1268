// Subdivisions of K5 and K3,3 in a graph, the exact check of one, and its way from one graph into another.
//
// A subdivision of a pattern in a graph is a list of different branch vertices, one for each vertex of the pattern, and a path
// of the graph for each edge of the pattern, between the two branch vertices that it joins; two paths share no vertex but a
// branch vertex that ends both, and no branch vertex is inside a path. By Kuratowski (1930) a graph is nonplanar if and only if
// it has a subdivision of K5 or of K3,3. Each subdivision has one written form, in which its branch vertices are in order.
//
// The check walks each path once, with one mark for each vertex. Its promise holds of every certificate, whatever numbers and
// however many lists it has.
//
// Where the edges of one graph are paths of another one, their routes, which share no vertex but common ends, a subdivision of the
// first becomes one of the second when each of its edges is replaced by its route. `lift` does so for any two graphs and any
// routes, and promises that the written form is kept.
//
// The lemmas that other crates may use (preceded by their module of proofs/):
//   Meetings     subdivision-meetings, subdivision-from_meetings: a subdivision path by path: two paths share only branch
//                vertices, and a path has no branch vertex but its ends
//   Meetings     branch-member, ends-member, ends-differ: the branch vertices of an edge of the pattern
//   Checked      pair-rises: an edge of the pattern joins two different vertices of it, the lesser first
//   Reordering   pair-once, reordered-subdivision: the branch vertices in another order, and the paths with them
//   WrittenForm  written_form: each subdivision has a written form
//   Lifted       path-append, lifted-subdivision, lifted-written: a subdivision carried over
#![tactic(auto)]

mod checking;
mod lifting;
mod ordering;
mod subdivision;

pub use checking::{check, is_subdivision};
pub use lifting::lift;
pub use ordering::written_form;
pub use subdivision::{Pattern, Subdivision};
