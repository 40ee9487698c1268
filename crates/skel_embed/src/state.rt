// A block in the plane.

ghost use Rattle.std.specs.Prelude.{◌≡◌, ◌<◌, ℕ, List, true, length, map, reverse, IfOk, IfErr, slice_set, IsPermutation};
ghost use Rattle.std.specs.List.{concat};
ghost use Rattle.permutations.specs.Cyclic.{from_least};
ghost use Rattle.permutations.specs.Members.{is_member};
ghost use Rattle.pair_split.specs.declared.components.Kind.TheVariants.{P, R};
ghost use Rattle.skeletons.specs.Items.{node_keys};
ghost use Rattle.skeletons.specs.Choices.{choice};
ghost use Rattle.skeletons.specs.Moves.{IsNodeOfKind, FlipLeads, PermuteLeads};
ghost use Rattle.rotations.specs.Runs.{mirror_image};
ghost use Rattle.skel_embed.specs.Exchanges.{exchanged, turned_choice};
ghost use Rattle.skeletons.specs.Lists.{KeepsChoices};
ghost use Rattle.faces.specs.Euler.{IsPlaneSystem};
ghost use Rattle.skel_embed.specs.Block.{BlockState, lock_at, choices_by, IsBlockState};
ghost use Rattle.skel_embed.specs.Flat.{lists_in, AreFlat};
ghost use Rattle.skel_embed.specs.Taken.{IsGiven, IsTakeRefusal};

use crate::arranging::arrange_node;
use crate::choices::{
    Choices, arrange_choice, exchange_in_choice, turn_all, turn_choice, write_choice,
};
use crate::choosing::{choices_of, first_other};
use crate::drafts::Draft;
use crate::exchanging::exchange_node;
use crate::selecting::with_choices;
use crate::taking::{TakeFault, given};
use crate::turning::turn_node;
use multigraph::{Graph, Part};
use rotations::{Lists, Rotation};
use spqr_tree::Tree;
use std::alloc::{AllocError, Global};
use std::marker::Model;
use std::rc::Rc;

// What never changes in a block: its graph, its tree, and where the choice of each node ends among the keys of all.
#[derive(Debug, Drop)]
pub(crate) struct Frame {
    pub(crate) graph: Graph,
    pub(crate) tree: Tree,
    pub(crate) ends: Vec<usize>,
}

/// A block with its tree, a plane rotation system, the choice of each node, and locks on nodes. Contracts see all five. Copies
/// share graph and tree, which never change.
#[derive(Debug, Drop)]
pub struct PlaneBlock {
    frame: Rc<Frame>,
    rotation: Rotation,
    keys: Vec<u32>,
    locks: Vec<bool>,
}

impl Model for PlaneBlock {
    ghost use Rattle.skel_embed.specs.Block.{BlockState, IsBlockState};
    ghost use Rattle.skel_embed.specs.Flat.{lists_in, AreFlat};

    ghost Value = { BlockState };

    ghost view = { λ p. record {
      graph = p.frame.value.graph;
      tree = p.frame.value.tree;
      rotation = p.rotation;
      choices = lists_in p.keys.items p.frame.value.ends.items;
      locks = p.locks.items;
    } };

    ghost invariant = { λ p. IsBlockState (record {
      graph = p.frame.value.graph;
      tree = p.frame.value.tree;
      rotation = p.rotation;
      choices = lists_in p.keys.items p.frame.value.ends.items;
      locks = p.locks.items;
    }) × AreFlat (lists_in p.keys.items p.frame.value.ends.items)
        p.keys.items p.frame.value.ends.items };
}

impl PlaneBlock {
    // A block of these parts. Takes no memory.
    pub(crate) fn of(
        frame: Rc<Frame>,
        rotation: Rotation,
        keys: Vec<u32>,
        locks: Vec<bool>,
    ) -> PlaneBlock
        requires state { IsBlockState (record {
          graph = frame.value.graph;
          tree = frame.value.tree;
          rotation = rotation;
          choices = lists_in keys.items frame.value.ends.items;
          locks = locks.items;
        }) }
        requires flat { AreFlat (lists_in keys.items frame.value.ends.items)
            keys.items frame.value.ends.items }
        ensures { result ≡ record {
          graph = frame.value.graph;
          tree = frame.value.tree;
          rotation = rotation;
          choices = lists_in keys.items frame.value.ends.items;
          locks = locks.items;
        } }
    {
        PlaneBlock {
            frame,
            rotation,
            keys,
            locks,
        }
    }

    // The choices, as they are kept.
    fn choices(&self) -> Choices<'_>
        ensures value { result ≡ self.now.choices }
        ensures state { IsBlockState self.now }
    {
        let frame = self.frame.as_ref();
        Choices::of(self.keys.as_slice(), frame.ends.as_slice())
    }

    /// The graph.
    pub fn graph(&self) -> &Graph
        ensures value { result.now ≡ self.now.graph }
        ensures state { IsBlockState self.now }
    {
        &self.frame.graph
    }

    /// The tree.
    pub fn tree(&self) -> &Tree
        ensures value { result.now ≡ self.now.tree }
        ensures state { IsBlockState self.now }
    {
        &self.frame.tree
    }

    /// The present rotation system.
    pub fn rotation(&self) -> &Rotation
        ensures value { result.now ≡ self.now.rotation }
        ensures state { IsBlockState self.now }
    {
        &self.rotation
    }

    /// The present choice of node `k`: of a bond or a triconnected node the keys of its items in the order in which their groups
    /// lie around its least vertex, from the least on; of other nodes the empty list. Fails only if memory runs out.
    pub fn choice(&self, alloc: Global, k: u32) -> Result<Vec<u32>, AllocError>
        requires { k < length self.now.tree }
        ensures { IfOk result (λ keys. keys.items ≡ choice self.now.tree self.now.rotation k) }
    {
        Vec::from_slice(alloc, self.choices().at(k as usize))
    }

    /// The present choice of node `k`, as it is kept. Takes no memory.
    pub fn keys(&self, k: u32) -> &[u32]
        requires { k < length self.now.tree }
        ensures { result.now ≡ choice self.now.tree self.now.rotation k }
    {
        self.choices().at(k as usize)
    }

    /// The parts belong together. For proofs alone: does nothing.
    pub fn belongs(&self)
        ensures { IsBlockState self.now }
    {
        let _ = self.tree();
    }

    /// Whether node `k` is locked.
    pub fn locked(&self, k: u32) -> bool
        requires { k < length self.now.tree }
        ensures { result ≡ lock_at self.now.locks k }
    {
        self.locks[k as usize]
    }

    /// Locks node `k`, or removes its lock. All else stays.
    pub fn set_lock(&mut self, k: u32, on: bool)
        requires { k < length self.old.tree }
        ensures { self.new ≡ record self.old { locks = slice_set self.old.locks k on } }
    {
        self.locks[k as usize] = on;
    }

    /// Flips the triconnected node `k`: at each of its vertices its groups come into the reverse cyclic order, each group as it
    /// was, and so the choice is reversed (Di Battista and Tamassia 1996). All else stays. Takes no memory, and time in
    /// proportion to the degrees of the node's vertices, times that of `Tree::group`.
    pub fn turn(&mut self, k: u32)
        requires node { IsNodeOfKind self.old.tree k R }
        ensures flip { FlipLeads self.old.graph self.old.tree k self.old.rotation self.new.rotation }
        ensures choice { self.new.choices ≡ slice_set self.old.choices k
            (from_least (reverse (choice self.old.tree self.old.rotation k))) }
        ensures rest { self.new ≡ record self.old {
          rotation = self.new.rotation;
          choices = self.new.choices;
        } }
    {
        let frame = self.frame.as_ref();
        turn_node(&frame.graph, &frame.tree, &mut self.rotation, k);
        turn_choice(&mut self.keys, frame.ends.as_slice(), k as usize);
    }

    /// Exchanges the groups of the bond `k` with the keys `a` and `b` at both poles, each group as it was (Di Battista and
    /// Tamassia 1996). So these two keys are exchanged in the choice. All else stays. Takes no memory, and time in
    /// proportion to the degrees of the poles, times that of `Tree::group`.
    pub fn exchange_groups(&mut self, k: u32, a: u32, b: u32)
        requires node { IsNodeOfKind self.old.tree k P }
        requires first { is_member a (node_keys self.old.tree k) ≡ true }
        requires second { is_member b (node_keys self.old.tree k) ≡ true }
        ensures permute { PermuteLeads self.old.graph self.old.tree k
            (exchanged a b
            (choice self.old.tree self.old.rotation k)) self.old.rotation self.new.rotation }
        ensures choice { self.new.choices ≡ slice_set self.old.choices k
            (from_least (exchanged a b (choice self.old.tree self.old.rotation k))) }
        ensures rest { self.new ≡ record self.old {
          rotation = self.new.rotation;
          choices = self.new.choices;
        } }
    {
        let frame = self.frame.as_ref();
        exchange_node(&frame.graph, &frame.tree, &mut self.rotation, k, a, b);
        exchange_in_choice(&mut self.keys, frame.ends.as_slice(), k as usize, a, b);
    }

    /// Brings the groups of the bond `k` into the cyclic order of the keys at the lesser pole, and into the reverse at the other,
    /// each group as it was. So its choice has these keys, written from the least on. All else stays. Takes no memory, and time
    /// in proportion to the degrees of the poles, times that of `Tree::group`, where an edge of each group is found without a
    /// look at all edges of a pole. One group is not looked at: that beyond which the tree has most.
    pub fn arrange(&mut self, k: u32, keys: &[u32])
        requires node { IsNodeOfKind self.old.tree k P }
        requires arrangement { IsPermutation (node_keys self.old.tree k) keys.now }
        ensures permute { PermuteLeads self.old.graph self.old.tree k keys.now self.old.rotation
            self.new.rotation }
        ensures choice { self.new.choices ≡ slice_set self.old.choices k (from_least keys.now) }
        ensures rest { self.new ≡ record self.old {
          rotation = self.new.rotation;
          choices = self.new.choices;
        } }
    {
        let frame = self.frame.as_ref();
        arrange_node(&frame.graph, &frame.tree, &mut self.rotation, k, keys);
        arrange_choice(&mut self.keys, frame.ends.as_slice(), k as usize, keys);
    }

    /// Brings the groups of the bond `k` into the increasing order of their keys, as `arrange` does. Takes no memory.
    pub fn sort(&mut self, k: u32)
        requires node { IsNodeOfKind self.old.tree k P }
        ensures permute { PermuteLeads self.old.graph self.old.tree k (node_keys self.old.tree k)
            self.old.rotation self.new.rotation }
        ensures choice { self.new.choices ≡ slice_set self.old.choices k (node_keys self.old.tree k) }
        ensures rest { self.new ≡ record self.old {
          rotation = self.new.rotation;
          choices = self.new.choices;
        } }
    {
        let frame = self.frame.as_ref();
        let (graph, tree, ends) = (&frame.graph, &frame.tree, frame.ends.as_slice());
        write_choice(&mut self.keys, ends, k as usize, tree.items(k));
        let keys = Choices::of(self.keys.as_slice(), ends).at(k as usize);
        arrange_node(graph, tree, &mut self.rotation, k, keys);
    }

    /// Reverses every rotation: the mirror image of the block, in which each choice is reversed. All else stays. Takes no
    /// memory, and time in proportion to the size of the block.
    pub fn mirror(&mut self)
        ensures mirrored { self.new.rotation ≡ mirror_image self.old.rotation }
        ensures choices { self.new.choices ≡ map turned_choice self.old.choices }
        ensures rest { self.new ≡ record self.old {
          rotation = self.new.rotation;
          choices = self.new.choices;
        } }
    {
        self.rotation.mirror();
        let frame = self.frame.as_ref();
        turn_all(&mut self.keys, frame.ends.as_slice());
    }

    /// Makes lists the rotation system of the block. `part` is the part of a graph that the block is, and the lists are in the
    /// numbers of the whole graph. Graph, tree and locks stay.
    ///
    /// Fails with `BadRotation` if the lists are not a rotation system of the block, as `Rotation::from_part` does; else with
    /// `NotGenusZero` if they are not plane, that is if V - E + F is not 2 (Euler 1758, Heffter 1891); else with `Locked` and the
    /// least such node if they have another choice at a locked node; fails with `Memory` if memory runs out. The block is then
    /// unchanged. Takes time n log n for n edges.
    pub fn take(&mut self, alloc: Global, part: &Part, lists: &Lists) -> Result<(), TakeFault>
        requires { part.now.graph ≡ self.old.graph }
        ensures given { IfOk result (λ _. IsGiven part.now lists.now self.new.rotation) }
        ensures keeps { IfOk result (λ _. KeepsChoices self.old.tree
            (λ k. lock_at self.old.locks k) self.old.rotation self.new.rotation) }
        ensures rest { IfOk result (λ _. self.new ≡ record self.old {
          rotation = self.new.rotation;
          choices = self.new.choices;
        }) }
        ensures refused { IfErr result (λ fault. IsTakeRefusal self.old part.now lists.now fault
            × (self.new ≡ self.old)) }
    {
        let (rotation, keys) = self.taken(alloc, part, lists)?;
        self.rotation = rotation;
        self.keys = keys;
        Ok(())
    }

    /// The choices as a draft, on which moves are made before the rotation system is. Fails only if memory runs out.
    pub fn draft(&self, alloc: Global) -> Result<Draft, AllocError>
        ensures { IfOk result (λ draft. draft ≡ self.now.choices) }
    {
        self.belongs();
        Ok(Draft::of(self.frame.clone()?, Vec::from_slice(alloc, &self.keys)?))
    }

    /// The block at the plane rotation system with the choices of a draft, composed of the rotation systems of its skeletons (Di
    /// Battista and Tamassia 1996). Graph, tree and locks are the same. Takes time n log n for n edges, whatever number of choices differ.
    /// Fails only if memory runs out.
    pub fn with_choices(&self, alloc: Global, draft: Draft) -> Result<PlaneBlock, AllocError>
        requires { (q : List (List ℕ)) × IsPlaneSystem self.now.graph q
            × (draft ≡ choices_by self.now.tree q) }
        ensures { (q : List (List ℕ)) → IsPlaneSystem self.now.graph q
            → draft ≡ choices_by self.now.tree q
            → IfOk result (λ p. p ≡ record self.now { rotation = q; choices = draft }) }
    {
        let (graph, tree) = (self.graph(), self.tree());
        let (old, new) = (self.choices(), draft.choices());
        let rotation = with_choices(alloc, graph, tree, &self.rotation, &old, &new)?;
        let locks = Vec::from_slice(alloc, &self.locks)?;
        Ok(PlaneBlock {
            frame: self.frame.clone()?,
            rotation,
            keys: draft.into_keys(),
            locks,
        })
    }

    // The rotation system that the lists are, and the keys of its choices, if it may become that of the block.
    fn taken(
        &self,
        alloc: Global,
        part: &Part,
        lists: &Lists,
    ) -> Result<(Rotation, Vec<u32>), TakeFault>
        requires { part.now.graph ≡ self.now.graph }
        ensures given { IfOk result (λ new. IsGiven part.now lists.now new.0) }
        ensures plane { IfOk result (λ new. IsPlaneSystem self.now.graph new.0) }
        ensures keeps { IfOk result (λ new. KeepsChoices self.now.tree
            (λ k. lock_at self.now.locks k) self.now.rotation new.0) }
        ensures keys { IfOk result (λ new. new.1.items ≡ concat (choices_by self.now.tree new.0)) }
        ensures refused { IfErr result (IsTakeRefusal self.now part.now lists.now) }
    {
        let (graph, tree) = (self.graph(), self.tree());
        let rotation = given(alloc, graph, part, lists)?;
        let Ok(keys) = choices_of(alloc, graph, tree, &rotation, &self.choices()) else {
            return Err(TakeFault::Memory);
        };
        let n = tree.node_count();
        let ends = self.frame.ends.as_slice();
        let other = first_other(n, &self.locks, &self.choices(), &Choices::of(&keys, ends));
        match other {
            Some(k) => Err(TakeFault::Locked(k)),
            None => Ok((rotation, keys)),
        }
    }

    /// A copy of the block. Fails only if memory runs out.
    pub fn copy(&self, alloc: Global) -> Result<PlaneBlock, AllocError>
        ensures { IfOk result (λ p. p ≡ self.now) }
    {
        Ok(PlaneBlock {
            frame: self.frame.clone()?,
            rotation: self.rotation.copy(alloc)?,
            keys: Vec::from_slice(alloc, &self.keys)?,
            locks: Vec::from_slice(alloc, &self.locks)?,
        })
    }
}
