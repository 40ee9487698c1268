// Lists for a part of a graph, in the numbers of the whole graph.
//
// They are written in the numbers of the part and checked there; the number in a fault is that of the whole graph.

ghost use Rattle.std.specs.Prelude.{◌≡◌, ℕ, ◌<◌, ◌≤◌, length, map, IfOk, MatchResult};
ghost use Rattle.std.specs.List.{Contains};
ghost use Rattle.std.specs.Option.{MatchOption};
ghost use Rattle.rotations.specs.Entries.{entry, IsNamed, IsReachedAt};
ghost use Rattle.rotations.specs.Given.{AreArranged, IsRefusal};
ghost use Rattle.rotations.specs.PartLists.{ArrangePart, IsPartRefusal, AreInnerBelow, IsFirstStranger};
ghost use Rattle.permutations.specs.Members.{place_of};

use crate::arrangement::check_lists;
use crate::entries::Lists;
use crate::faults::RotFault;
use multigraph::Part;
use std::alloc::{AllocError, Global};

// Searches for the least number at which the lists are not a rotation system of the part; `inner` are the lists in its own numbers.
pub(crate) fn check_part(
    alloc: Global,
    p: &Part,
    lists: &Lists,
    inner: &Lists,
) -> Result<(), RotFault>
    requires { AreInnerBelow p.now lists.now inner.now p.now.graph.vertex_count }
    ensures outer { MatchResult result (λ _. ArrangePart p.now lists.now)
        (λ fault. IsPartRefusal p.now lists.now fault) }
    ensures arranged { IfOk result (λ _. AreArranged p.now.graph inner.now) }
{
    let stranger = first_stranger(p, lists);
    match check_lists(alloc, p.graph(), inner) {
        Ok(()) => match stranger {
            Some(w) => Err(RotFault::BadRotation(w)),
            None => Ok(()),
        },
        Err(fault) => Err(outer_fault(p, lists, inner, fault, stranger)),
    }
}

// The fault in the numbers of the whole graph.
fn outer_fault(
    p: &Part,
    lists: &Lists,
    inner: &Lists,
    fault: RotFault,
    stranger: Option<u32>,
) -> RotFault
    requires inner { AreInnerBelow p.now lists.now inner.now p.now.graph.vertex_count }
    requires due { IsRefusal p.now.graph inner.now fault }
    requires stranger { MatchOption stranger ((v : ℕ) → IsNamed lists.now v
        → Contains p.now.vertices v) (λ v. IsFirstStranger p.now lists.now v) }
    ensures { IsPartRefusal p.now lists.now result }
{
    p.keeps_numbers();
    match fault {
        RotFault::BadRotation(i) => {
            let v = p.vertex(i);
            match stranger {
                Some(w) => {
                    if w < v {
                        RotFault::BadRotation(w)
                    } else {
                        RotFault::BadRotation(v)
                    }
                }
                None => RotFault::BadRotation(v),
            }
        }
        RotFault::Memory => RotFault::Memory,
    }
}

// The least number that is named and not a vertex of the part.
fn first_stranger(p: &Part, lists: &Lists) -> Option<u32>
    ensures { MatchOption result ((v : ℕ) → IsNamed lists.now v
        → Contains p.now.vertices v) (λ v. IsFirstStranger p.now lists.now v) }
{
    for k in 0..lists.len() {
        let v = lists.vertex(k);
        match p.inner_vertex(v) {
            Some(_) => {}
            None => return Some(v),
        }
    }
    None
}

// The lists in the numbers of the part: one for each of its vertices.
pub(crate) fn inner_lists(alloc: Global, p: &Part, lists: &Lists) -> Result<Lists, AllocError>
    ensures { IfOk result (λ inner. AreInnerBelow p.now lists.now inner p.now.graph.vertex_count) }
{
    let mut inner = Lists::new(alloc);
    let mut at = 0;
    for i in 0..p.graph().vertex_count() {
        let v = p.vertex(i);
        let (list, after) = lists.given(reach(lists, at, v), v);
        inner.push(i, &inner_edges(alloc, p, list)?)?;
        at = after;
    }
    Ok(inner)
}

// The place of the first entry that is for no smaller vertex than v, where those before `at` are for smaller ones.
fn reach(lists: &Lists, at: usize, v: u32) -> usize
    requires within { at ≤ length lists.now }
    requires smaller { (k : ℕ) → k < at → (entry lists.now k).0 < v }
    ensures { IsReachedAt lists.now result v }
{
    for k in at..lists.len() {
        if lists.vertex(k) >= v {
            return k;
        }
    }
    lists.len()
}

// The numbers in the part of the edges of a list.
fn inner_edges(alloc: Global, p: &Part, list: &[u32]) -> Result<Vec<u32>, AllocError>
    ensures { IfOk result (λ edges. edges.items ≡ map (place_of p.now.edges) list.now) }
{
    let mut edges = Vec::with_capacity(alloc, list.len())?;
    for e in list {
        edges.push(inner_edge(p, *e))?;
    }
    Ok(edges)
}

// The number of an edge in the part, and the number of its edges where it is not one of them.
fn inner_edge(p: &Part, e: u32) -> u32
    ensures { result ≡ place_of p.now.edges e }
{
    let count = p.graph().edge_count();
    match p.inner_edge(e) {
        Some(k) => k,
        None => count,
    }
}
