// For each node of a tree the item of a given node that leads towards it: a search from the node through the links, in the
// order of distance.

ghost use Rattle.std.specs.Prelude.{◌≡◌, ◌≢◌, ◌<◌, ◌^◌, ℕ, true, [], length, IfOk};
ghost use Rattle.permutations.specs.Members.{is_member};
ghost use Rattle.multigraph.specs.Graph.{Multigraph};
ghost use Rattle.pair_split.specs.Tutte.{node_at, IsTutte};
ghost use Rattle.pair_split.specs.declared.components.What.TheVariants.{Link};
ghost use Rattle.graph_paths.specs.Listing.{AreListed, Grows};
ghost use Rattle.block_obstruct.specs.Towards.{HaveItem, IsItem, LeadBelow, AreTowards};

use graph_paths::add_once;
use pair_split::{Item, What};
use spqr_tree::Tree;
use std::alloc::{AllocError, Global};

// Appends the nodes to which the items are links to the list, and notes for each the place of the item.
fn begin(
    items: &[Item],
    marks: &mut [bool],
    notes: &mut [u32],
    list: &mut Vec<u32>,
) -> Result<(), AllocError>
    requires listed { AreListed marks.old notes.old list.old.items }
    requires below { LeadBelow items.now (length marks.old) }
    requires few { length items.now < 2 ^ 32 }
    ensures listed { IfOk result (λ _. AreListed marks.new notes.new list.new.items) }
    ensures size { IfOk result (λ _. length marks.new ≡ length marks.old) }
    ensures grows { IfOk result (λ _. Grows (λ y m. IsItem items.now m (Link y))
        list.old.items notes.old list.new.items notes.new) }
    ensures met { IfOk result (λ _. (h : ℕ) → HaveItem items.now (Link h)
        → is_member h list.new.items ≡ true) }
{
    for (i, item) in items.iter().enumerate() {
        if let What::Link(j) = item.what {
            add_once(marks, notes, list, j, i as u32)?;
        }
    }
    Ok(())
}

// Appends the nodes to which the items are links, but for node k, to the list, with this note.
fn spread(
    items: &[Item],
    k: u32,
    note: u32,
    marks: &mut [bool],
    notes: &mut [u32],
    list: &mut Vec<u32>,
) -> Result<(), AllocError>
    requires listed { AreListed marks.old notes.old list.old.items }
    requires below { LeadBelow items.now (length marks.old) }
    ensures listed { IfOk result (λ _. AreListed marks.new notes.new list.new.items) }
    ensures size { IfOk result (λ _. length marks.new ≡ length marks.old) }
    ensures grows { IfOk result (λ _. Grows (λ y m. (m ≡ note) × (y ≢ k) × HaveItem items.now (Link y))
        list.old.items notes.old list.new.items notes.new) }
    ensures met { IfOk result (λ _. (h : ℕ) → HaveItem items.now (Link h) → h ≢ k
        → is_member h list.new.items ≡ true) }
{
    for item in items {
        if let What::Link(h) = item.what {
            if h != k {
                add_once(marks, notes, list, h, note)?;
            }
        }
    }
    Ok(())
}

// Notes for each node but k the place of the item of node k that leads towards it.
fn reach(
    tree: &Tree,
    k: u32,
    marks: &mut [bool],
    notes: &mut [u32],
    list: &mut Vec<u32>,
) -> Result<(), AllocError>
    requires node { k < length tree.now }
    requires tree { (g : Multigraph) × IsTutte g tree.now }
    requires few { length (node_at tree.now k).items < 2 ^ 32 }
    requires listed { AreListed marks.old notes.old list.old.items }
    requires empty { list.old.items ≡ [] }
    requires size { length marks.old ≡ length tree.now }
    ensures { IfOk result (λ _. AreTowards tree.now k notes.new) }
{
    begin(tree.items(k), marks, notes, list)?;
    for q in 0..tree.node_count() {
        if (q as usize) < list.len() {
            let x = list[q as usize];
            let note = notes[x as usize];
            spread(tree.items(x), k, note, marks, notes, list)?;
        }
    }
    Ok(())
}

// For each node but k the place of the item of node k that leads towards it.
pub(crate) fn towards(alloc: Global, tree: &Tree, k: u32) -> Result<Vec<u32>, AllocError>
    requires node { k < length tree.now }
    requires tree { (g : Multigraph) × IsTutte g tree.now }
    requires few { length (node_at tree.now k).items < 2 ^ 32 }
    ensures places { IfOk result (λ notes. length notes.items ≡ length tree.now) }
    ensures towards { IfOk result (λ notes. AreTowards tree.now k notes.items) }
{
    let n = tree.node_count() as usize;
    let mut marks = vec![in alloc; false; n]?;
    let mut notes = vec![in alloc; 0; n]?;
    let mut list = Vec::new(alloc);
    reach(tree, k, &mut marks, &mut notes, &mut list)?;
    Ok(notes)
}
