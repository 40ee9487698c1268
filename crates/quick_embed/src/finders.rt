// What proposes embeddings and certificates, and the finder by the left-right method.

use kuratowski::Subdivision;
use multigraph::Graph;
use quick_obstruct::propose_subdivision;
use quick_rotation::propose_rotation;
use rotations::Lists;
use std::alloc::{AllocError, Global};

/// A finder: it proposes embeddings and certificates, of which nothing is promised.
pub trait Finder {
    /// The edges around each vertex in cyclic orders that may be a plane rotation system of the graph. Fails only if memory runs
    /// out.
    fn rotation(&mut self, alloc: Global, g: &Graph) -> Result<Option<Lists>, AllocError>;

    /// What may be a subdivision of K5 or of K3,3 in the graph. Fails only if memory runs out.
    fn subdivision(&mut self, alloc: Global, g: &Graph) -> Result<Option<Subdivision>, AllocError>;
}

/// The finder by the left-right method (de Fraysseix and Rosenstiehl 1982; Brandes 2009). A subdivision is found by trying with
/// which edges, and with which paths, the graph stays nonplanar.
#[derive(Debug, Drop)]
pub struct LeftRight;

impl Finder for LeftRight {
    fn rotation(&mut self, alloc: Global, g: &Graph) -> Result<Option<Lists>, AllocError> {
        propose_rotation(alloc, g)
    }

    fn subdivision(&mut self, alloc: Global, g: &Graph) -> Result<Option<Subdivision>, AllocError> {
        propose_subdivision(alloc, g)
    }
}
