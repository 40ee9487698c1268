// The tables: what is drawn, the search through a bridge, and the corners that fit it. They are reserved before the first round.

ghost use Rattle.std.specs.Prelude.{IfOk};
ghost use Rattle.path_rotation.specs.Fitting.{HaveRoom};

use multigraph::Graph;
use std::alloc::{AllocError, Global};

// What is drawn: for each dart the next drawn one around its vertex and the label of its face, for each edge whether it is drawn,
// for each vertex whether one of its edges is.
#[derive(Drop)]
pub(crate) struct Board {
    pub next: Vec<u32>,
    pub label: Vec<u32>,
    pub drawn: Vec<bool>,
    pub on: Vec<bool>,
}

// The search through a bridge: the vertices on the drawn part whose edges are to be tried in this round, and the edges between such
// vertices that were tried in vain; the vertices seen in this round and the attachments met in this search; the vertices off the drawn
// part, in the order in which they were reached, and the attachments.
#[derive(Drop)]
pub(crate) struct Search {
    pub waiting: Vec<u32>,
    pub tried: Vec<bool>,
    pub seen: Vec<bool>,
    pub met: Vec<bool>,
    pub list: Vec<u32>,
    pub attached: Vec<u32>,
}

// The corners that may fit a bridge: for each vertex reached the edge by which it was and how many edges away it is; stamps on the
// labels of the faces at one attachment; the corners at the tail, those that are kept, the drawn darts at an attachment, and the
// path to it.
#[derive(Drop)]
pub(crate) struct Fits {
    pub notes: Vec<u32>,
    pub depth: Vec<u32>,
    pub passed: Vec<u32>,
    pub stamp: u32,
    pub corners: Vec<u32>,
    pub kept: Vec<u32>,
    pub there: Vec<u32>,
    pub path: Vec<u32>,
}

impl Search {
    // Room for searches through a graph. In a round a vertex waits once at first, and again for each edge that is drawn to it.
    pub(crate) fn of(alloc: Global, g: &Graph) -> Result<Search, AllocError> {
        let n = g.vertex_count() as usize;
        let m = g.edge_count() as usize;
        Ok(Search {
            waiting: Vec::with_capacity(alloc, n + m)?,
            tried: vec![in alloc; false; m]?,
            seen: vec![in alloc; false; n]?,
            met: vec![in alloc; false; n]?,
            list: Vec::with_capacity(alloc, n)?,
            attached: Vec::with_capacity(alloc, n)?,
        })
    }
}

impl Fits {
    // Room for the corners in a graph.
    pub(crate) fn of(alloc: Global, g: &Graph) -> Result<Fits, AllocError>
        ensures { IfOk result (λ f. HaveRoom g.now f.notes.items f.depth.items f.passed.items) }
    {
        let n = g.vertex_count() as usize;
        let m = g.edge_count() as usize;
        Ok(Fits {
            notes: vec![in alloc; 0; n]?,
            depth: vec![in alloc; 0; n]?,
            passed: vec![in alloc; 0; 2 * m]?,
            stamp: 0,
            corners: Vec::with_capacity(alloc, m)?,
            kept: Vec::with_capacity(alloc, m)?,
            there: Vec::with_capacity(alloc, m)?,
            path: Vec::with_capacity(alloc, n)?,
        })
    }
}
