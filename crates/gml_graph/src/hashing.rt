// The hashers by which ids are found.

ghost use Rattle.std.specs.Prelude.{◌≡◌, map};
ghost use Rattle.std.specs.List.{fold};
ghost use Rattle.std.specs.Hash.DefaultHasher as sip;
ghost use Rattle.gml_graph.specs.Hashing.{id_writes};

use crate::integers::Reading;
use crate::lists::first_under;
use gml_text::Pairs;
use std::hash::{BuildHasher, DefaultHasher, Hash};

/// Builds hashers that continue from one state: that of a hasher which has been given the ids of all nodes.
///
/// The hash of each id depends on every other id, so that nobody who writes a document can choose ids that collide: the state is
/// known only when all ids are, and is a different one when any of them changes.
#[derive(Clone, Copy, Drop)]
pub(crate) struct BehindAllIds {
    start: DefaultHasher,
}

impl BehindAllIds {
    /// Those of a graph with these nodes.
    pub(crate) fn of(nodes: &[&Pairs]) -> BehindAllIds
        ensures { result.start ≡ fold sip.write sip.initial
            (id_writes (map (λ node. node.now) nodes.now)) }
    {
        let mut start = DefaultHasher::new();
        for node in nodes {
            if let Reading::Whole(id) = first_under(node.as_slice(), b"id") {
                id.hash(&mut start);
            }
        }
        BehindAllIds { start }
    }
}

impl BuildHasher for BehindAllIds {
    type Hasher = DefaultHasher;

    ghost build_hasher = { λ s. s.start };

    fn build_hasher(&self) -> DefaultHasher {
        self.start
    }
}
