// The groups of components that are merged: bonds with bonds and polygons with polygons, where links join them.

ghost use Rattle.std.specs.Prelude.{◌≡◌, ◌+◌, ◌<◌, ◌≤◌, ◌↔◌, ◌++◌, ℕ, true, List, [], ◌∷◌, length, IsSomeAnd, IfOk, IfSome, Some, None};
ghost use Rattle.pair_split.specs.Split.{component_at, items_of};
ghost use Rattle.pair_split.specs.declared.components.Comp.{Comp};
ghost use Rattle.pair_split.specs.declared.components.What.TheVariants.{Link};
ghost use Rattle.slab.specs.Slab.{get, ContainsKey};
ghost use Rattle.spqr_tree.specs.Merged.{is_outer, AreGroups, IsMerged};
ghost use Rattle.spqr_tree.specs.Keys.{AreWithin};
ghost use Rattle.spqr_tree.specs.Merging.{group_of, slab_key, AreHeld, IsAdded, AreLive, IsTakenOut, IsLed, AreSplit, AreFinished, IsAbsorbed, IsMerging, IsResting, KeepsLed, with_piece, with_done, pieces_left, IsPushed, IsTaken, IsStarted};
ghost use Rattle.spqr_tree.specs.Absent.{absent};

use crate::ABSENT;
use pair_split::{Comp, CompList, Kind, Piece, PieceList, What};
use slab::Slab;
use std::alloc::{AllocError, Global};
use std::marker::Model;
use std::mem;

// The live components, those that are in no group yet, and the key under which each component was put in.
#[derive(Drop)]
struct Live {
    slab: Slab<Comp>,
    keys: Vec<usize>,
}

impl Model for Live {
    ghost use Rattle.spqr_tree.specs.Merging.{LiveState};

    ghost Value = { LiveState };

    ghost view = { λ s. record { slab = s.slab; keys = s.keys.items } };
}

impl Live {
    // All these components are live.
    fn new(alloc: Global, comps: Vec<Comp>) -> Result<Live, AllocError>
        ensures { IfOk result (λ live. AreHeld comps.items live (length comps.items)) }
    {
        let mut live = Live {
            slab: Slab::with_capacity(alloc, comps.len())?,
            keys: Vec::with_capacity(alloc, comps.len())?,
        };
        for comp in comps {
            live.add(comp)?;
        }
        Ok(live)
    }

    // One component more is live.
    fn add(&mut self, comp: Comp) -> Result<(), AllocError>
        ensures { IfOk result (λ _. IsAdded self.old self.new comp) }
    {
        let key = self.slab.insert(comp)?;
        self.keys.push(key)?;
        Ok(())
    }

    // Whether component d is live.
    fn contains(&self, d: u32) -> bool
        requires { d < length self.now.keys }
        ensures { (result ≡ true) ↔ ContainsKey self.now.slab (slab_key self.now d) }
    {
        self.slab.contains(self.keys[d as usize])
    }

    // Whether component d is live and of this kind.
    fn is_of_kind(&self, d: u32, kind: Kind) -> bool
        requires { d < length self.now.keys }
        ensures { (result ≡ true)
            ↔ IsSomeAnd (get self.now.slab (slab_key self.now d)) (λ comp. comp.kind ≡ kind) }
    {
        match self.slab.get(self.keys[d as usize]) {
            Some(comp) => comp.kind == kind,
            None => false,
        }
    }

    // Component d, which is no longer live.
    fn take(&mut self, d: u32) -> Comp
        requires place { d < length self.old.keys }
        requires live { ContainsKey self.old.slab (slab_key self.old d) }
        ensures comp { get self.old.slab (slab_key self.old d) ≡ Some result }
        ensures out { IsTakenOut self.old self.new d }
    {
        match self.slab.try_remove(self.keys[d as usize]) {
            Some(comp) => comp,
            None => unreachable!(),
        }
    }
}

// The groups so far: the components that are in none, the group of each component, what the finished groups are, and the pieces
// of the group in work, those that were looked at and those that were not. Components are moved, and no list of them is left:
// in contracts `comps` is the list as it was.
#[derive(Drop)]
pub(crate) struct Merging {
    live: Live,
    lead: Vec<u32>,
    groups: Vec<Comp>,
    done: Vec<Piece>,
    stack: Vec<Piece>,
}

impl Model for Merging {
    ghost use Rattle.spqr_tree.specs.Merging.{MergingState};

    ghost Value = { MergingState };

    ghost view = { λ s. record {
      live = s.live;
      lead = s.lead.items;
      groups = s.groups.items;
      done = s.done.items;
      stack = s.stack.items;
    } };
}

// The number of the group of component c.
pub(crate) fn group_of(lead: &[u32], c: u32) -> u32
    requires { c < length lead.now }
    ensures { result ≡ group_of lead.now c }
{
    lead[c as usize]
}

// Whether components of this kind are merged where links join them.
fn is_merged(kind: Kind) -> bool
    ensures { (result ≡ true) ↔ IsMerged kind }
{
    kind == Kind::S || kind == Kind::P
}

// Whether the piece is no link into group k.
fn is_outer(lead: &[u32], k: u32, what: What) -> bool
    requires { (j : ℕ) → what ≡ Link j → j < length lead.now }
    ensures { result ≡ is_outer (group_of lead.now) k what }
{
    match what {
        What::Real(_) => true,
        What::Link(j) => group_of(lead, j) != k,
    }
}

// Puts the pieces that are no links into group k on the stack.
fn push_outer(
    stack: &mut Vec<Piece>,
    pieces: &[Piece],
    lead: &[u32],
    k: u32,
) -> Result<(), AllocError>
    requires { AreWithin pieces.now (length lead.now) }
    ensures { IfOk result (λ _. IsPushed stack.old.items stack.new.items lead.now k pieces.now) }
{
    for piece in pieces {
        if is_outer(lead, k, piece.what) {
            stack.push(*piece)?;
        }
    }
    Ok(())
}

impl Merging {
    // None of these components is in a group yet.
    fn new(alloc: Global, comps: Vec<Comp>) -> Result<Merging, AllocError>
        ensures live { IfOk result (λ s. AreLive comps.items s.lead s.live) }
        ensures none { IfOk result (λ s. (x : ℕ) → group_of s.lead x ≡ absent) }
        ensures places { IfOk result (λ s. length s.lead ≡ length comps.items) }
        ensures empty { IfOk result (λ s. (s.groups ≡ []) × (s.done ≡ []) × (s.stack ≡ [])) }
    {
        let lead = vec![in alloc; ABSENT; comps.len()]?;
        let groups = Vec::with_capacity(alloc, comps.len())?;
        Ok(Merging {
            live: Live::new(alloc, comps)?,
            lead,
            groups,
            done: Vec::new(alloc),
            stack: Vec::new(alloc),
        })
    }

    // The group of each component.
    fn table(&self) -> &[u32]
        ensures { result.now ≡ self.now.lead }
    {
        self.lead.as_slice()
    }

    // The group of each component, and the groups.
    pub(crate) fn into_parts(self) -> (Vec<u32>, Vec<Comp>)
        ensures lead { result.0.items ≡ self.lead }
        ensures groups { result.1.items ≡ self.groups }
    {
        (self.lead, self.groups)
    }

    // Whether component d is in no group yet.
    fn is_live(&self, d: u32) -> bool
        ghost comps: { List Comp }
        requires live { AreLive comps self.now.lead self.now.live }
        requires place { d < length self.now.lead }
        ensures { (result ≡ true) ↔ (group_of self.now.lead d ≡ absent) }
    {
        self.live.contains(d)
    }

    // Whether component d is of this kind and in no group, and has to be merged with its like.
    fn is_absorbed(&self, kind: Kind, d: u32) -> bool
        ghost comps: { List Comp }
        requires live { AreLive comps self.now.lead self.now.live }
        requires place { d < length self.now.lead }
        ensures { (result ≡ true) ↔ IsAbsorbed comps self.now.lead kind d }
    {
        is_merged(kind) && self.live.is_of_kind(d, kind)
    }

    // Puts component d, which is in no group, into the group in work.
    fn absorb(&mut self, d: u32) -> Result<(), AllocError>
        ghost comps: { List Comp }
        requires place { d < length self.old.lead }
        requires live { AreLive comps self.old.lead self.old.live }
        requires none { group_of self.old.lead d ≡ absent }
        requires links { AreWithin (items_of comps d) (length self.old.lead) }
        requires few { length self.old.groups < absent }
        ensures { IfOk result (λ _. IsTaken comps self.old self.new d) }
    {
        let comp = self.live.take(d);
        let k = self.groups.len() as u32;
        push_outer(&mut self.stack, comp.items.as_slice(), &self.lead, k)?;
        self.lead[d as usize] = k;
        Ok(())
    }

    // The piece was looked at.
    fn keep(&mut self, piece: Piece) -> Result<(), AllocError>
        ensures { IfOk result (λ _. self.new ≡ with_done self.old piece) }
    {
        self.done.push(piece)?;
        Ok(())
    }

    // One piece of the group in work is looked at.
    fn look(&mut self, kind: Kind, piece: Piece) -> Result<(), AllocError>
        ghost comps: { List Comp }
        requires split { AreSplit comps }
        requires merging { IsMerging comps kind (with_piece self.old piece) }
        ensures merging { IfOk result (λ _. IsMerging comps kind self.new) }
        ensures groups { IfOk result (λ _. self.new.groups ≡ self.old.groups) }
        ensures kept { IfOk result (λ _. KeepsLed self.old.lead self.new.lead) }
        ensures falls { IfOk result
            (λ _. pieces_left comps self.new ≤ pieces_left comps self.old) }
    {
        if let What::Link(d) = piece.what {
            if self.is_absorbed(kind, d) {
                self.absorb(d)?;
                return Ok(());
            }
        }
        self.keep(piece)?;
        Ok(())
    }

    // The next piece that was not looked at.
    fn next(&mut self) -> Option<Piece>
        ensures some { IfSome result (λ piece. self.old ≡ with_piece self.new piece) }
        ensures none { result ≡ None → (self.new ≡ self.old) × (self.old.stack ≡ []) }
    {
        self.stack.pop()
    }

    // Looks at all pieces of the group in work.
    fn explore(&mut self, kind: Kind) -> Result<(), AllocError>
        ghost comps: { List Comp }
        requires split { AreSplit comps }
        requires merging { IsMerging comps kind self.old }
        ensures merging { IfOk result (λ _. IsMerging comps kind self.new) }
        ensures groups { IfOk result (λ _. self.new.groups ≡ self.old.groups) }
        ensures kept { IfOk result (λ _. KeepsLed self.old.lead self.new.lead) }
        ensures empty { IfOk result (λ _. self.new.stack ≡ []) }
    {
        while let Some(piece) = self.next() {
            self.look(kind, piece)?;
        }
        Ok(())
    }

    // Puts component c, which is in none, into a new group; the kind of it.
    fn start(&mut self, c: u32) -> Kind
        ghost comps: { List Comp }
        requires place { c < length self.old.lead }
        requires live { AreLive comps self.old.lead self.old.live }
        requires none { group_of self.old.lead c ≡ absent }
        requires few { length self.old.groups < absent }
        ensures kind { result ≡ (component_at comps c).kind }
        ensures started { IsStarted comps self.old self.new c }
    {
        let comp = self.live.take(c);
        let kind = comp.kind;
        self.stack = comp.items.into_vec();
        // The first piece is looked at first.
        self.stack.reverse();
        self.lead[c as usize] = self.groups.len() as u32;
        kind
    }

    // Begins a group with component c, which is in none; the kind of it.
    fn begin(&mut self, c: u32) -> Kind
        ghost comps: { List Comp }
        requires split { AreSplit comps }
        requires resting { IsResting comps self.old }
        requires few { length self.old.groups < absent }
        requires within { c < length comps }
        requires none { group_of self.old.lead c ≡ absent }
        ensures merging { IsMerging comps result self.new }
        ensures groups { self.new.groups ≡ self.old.groups }
        ensures kept { KeepsLed self.old.lead self.new.lead }
        ensures led { IsLed self.new.lead c }
    {
        self.start(c)
    }

    // The group in work is finished. The memory of the stack, which is empty then, serves for the next one.
    fn finish(&mut self, alloc: Global, kind: Kind) -> Result<(), AllocError>
        ensures groups { IfOk result (λ _. self.new.groups
            ≡ self.old.groups ++ record { kind = kind; items = self.old.done } ∷ []) }
        ensures done { IfOk result (λ _. self.new.done ≡ self.old.stack) }
        ensures live { IfOk result (λ _. self.new.live ≡ self.old.live) }
        ensures lead { IfOk result (λ _. self.new.lead ≡ self.old.lead) }
        ensures stack { IfOk result (λ _. self.new.stack ≡ []) }
    {
        let stack = mem::replace(&mut self.stack, Vec::new(alloc));
        let done = mem::replace(&mut self.done, stack);
        self.groups.push(Comp {
            kind,
            items: PieceList::of(done),
        })?;
        Ok(())
    }

    // Makes the group of component c, which is in none yet.
    fn add_group(&mut self, alloc: Global, c: u32) -> Result<(), AllocError>
        ghost comps: { List Comp }
        requires split { AreSplit comps }
        requires resting { IsResting comps self.old }
        requires few { length self.old.groups < absent }
        requires within { c < length comps }
        requires none { group_of self.old.lead c ≡ absent }
        ensures resting { IfOk result (λ _. IsResting comps self.new) }
        ensures number { IfOk result (λ _. length self.new.groups ≡ length self.old.groups + 1) }
        ensures kept { IfOk result (λ _. KeepsLed self.old.lead self.new.lead) }
        ensures led { IfOk result (λ _. IsLed self.new.lead c) }
    {
        let kind = self.begin(c);
        self.explore(kind)?;
        self.finish(alloc, kind)?;
        Ok(())
    }
}

// The groups of all components.
pub(crate) fn groups_of(alloc: Global, list: CompList) -> Result<Merging, AllocError>
    ghost comps: { List Comp }
    requires same { list ≡ comps }
    requires split { AreSplit comps }
    requires few { length comps < absent }
    ensures groups { IfOk result (λ s. AreGroups comps (group_of s.lead) s.groups) }
    ensures finished { IfOk result (λ s. AreFinished comps s.lead s.groups) }
    ensures number { IfOk result (λ s. length s.groups ≤ length comps) }
    ensures places { IfOk result (λ s. length s.lead ≡ length comps) }
{
    let mut merging = Merging::new(alloc, list.into_vec())?;
    for c in 0..merging.table().len() as u32 {
        if merging.is_live(c) {
            merging.add_group(alloc, c)?;
        }
    }
    Ok(merging)
}
