// Nodes of a tree by their kinds.
ghost use Rattle.std.specs.Prelude.{◌≡◌, length, MatchOption};
ghost use Rattle.made_summary.specs.Kinds.{IsLeastWithChoices, NoneHasChoices, nodes_of};
ghost use Rattle.pair_split.specs.Kinds.{is_bond, is_polygon, is_rigid};

use pair_split::Kind;
use spqr_tree::Tree;

// How many nodes are polygons, bonds and triconnected.
#[derive(Clone, Copy)]
pub(crate) struct Kinds {
    pub(crate) polygons: u32,
    pub(crate) bonds: u32,
    pub(crate) rigid: u32,
}

// How many nodes of the tree are of each kind.
pub(crate) fn count_kinds(tree: &Tree) -> Kinds
    ensures polygons { result.polygons ≡ nodes_of is_polygon tree.now }
    ensures bonds { result.bonds ≡ nodes_of is_bond tree.now }
    ensures rigid { result.rigid ≡ nodes_of is_rigid tree.now }
{
    let mut polygons = 0;
    let mut bonds = 0;
    let mut rigid = 0;
    for k in 0..tree.node_count() {
        match tree.kind(k) {
            Kind::S => polygons += 1,
            Kind::P => bonds += 1,
            Kind::R => rigid += 1,
            Kind::B => {}
        }
    }
    Kinds {
        polygons,
        bonds,
        rigid,
    }
}

// The least node that has choices.
pub(crate) fn least_with_choices(tree: &Tree) -> Option<u32>
    ensures { MatchOption result (NoneHasChoices tree.now (length tree.now))
        (λ k. IsLeastWithChoices tree.now k) }
{
    for k in 0..tree.node_count() {
        if tree.kind(k).has_choices() {
            return Some(k);
        }
    }
    None
}
