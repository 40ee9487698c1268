// The split components of a block put into groups, in the order of the tree.

ghost use Rattle.std.specs.Prelude.{◌≡◌, ◌<◌, length, IfOk};
ghost use Rattle.graph_theory.specs.Block.{IsOneBlock};
ghost use Rattle.pair_split.specs.Split.{IsSplit};
ghost use Rattle.pair_split.specs.declared.components.Comp.{Comp};
ghost use Rattle.spqr_tree.specs.Merged.{AreGroups};
ghost use Rattle.spqr_tree.specs.Merging.{group_of, AreFinished, AreGroupsOf};
ghost use Rattle.spqr_tree.specs.Ranking.{ranks_of};
ghost use Rattle.spqr_tree.specs.Assembly.{IsArranged};
ghost use Rattle.spqr_tree.specs.Absent.{absent};

use crate::merging::{Merging, groups_of};
use crate::naming::place_groups;
use crate::ranking::{Rank, places, ranks};
use multigraph::Graph;
use pair_split::{Comp, CompList};
use std::alloc::{AllocError, Global};

// The groups of the components of a block.
fn groups_of_block(alloc: Global, g: &Graph, comps: CompList) -> Result<Merging, AllocError>
    requires block { IsOneBlock g.now }
    requires split { IsSplit g.now comps }
    ensures groups { IfOk result (λ s. AreGroups comps (group_of s.lead) s.groups) }
    ensures finished { IfOk result (λ s. AreFinished comps s.lead s.groups) }
    ensures places { IfOk result (λ s. length s.lead ≡ length comps) }
    ensures few { IfOk result (λ s. length s.groups < absent) }
{
    // A graph has few edges, so the components are few.
    let _ = g.edge_count();
    let merging = groups_of(alloc, comps)?;
    Ok(merging)
}

// The groups in the order of their vertices, and the vertices of each.
fn arrange_groups(
    alloc: Global,
    g: &Graph,
    lead: &[u32],
    groups: Vec<Comp>,
) -> Result<(Vec<Comp>, Vec<Rank>), AllocError>
    requires block { IsOneBlock g.now }
    requires groups { AreGroupsOf g.now lead.now groups.items }
    requires few { length groups.items < absent }
    ensures { IfOk result (λ r. IsArranged g.now r.0.items (ranks_of r.1.items)) }
{
    let ranks = ranks(alloc, &groups)?;
    let places = places(alloc, &ranks)?;
    let all = place_groups(alloc, lead, groups, &places, &ranks)?;
    Ok((all, ranks))
}

// The groups of the components of a block in the order of their vertices, and the vertices of each.
pub(crate) fn arrange(
    alloc: Global,
    g: &Graph,
    comps: CompList,
) -> Result<(Vec<Comp>, Vec<Rank>), AllocError>
    requires block { IsOneBlock g.now }
    requires split { IsSplit g.now comps }
    ensures { IfOk result (λ r. IsArranged g.now r.0.items (ranks_of r.1.items)) }
{
    let (lead, groups) = groups_of_block(alloc, g, comps)?.into_parts();
    arrange_groups(alloc, g, &lead, groups)
}
