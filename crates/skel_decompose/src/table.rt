// The table of what follows each item of each node around each of its ends (`skel_compose::item_place`), before it is filled.

ghost use Rattle.std.specs.Prelude.{◌+◌, ◌<◌, length, IfOk};
ghost use Rattle.skel_decompose.specs.Survey.{AreRows};

use crate::lists::FlatLists;
use spqr_tree::Tree;
use std::alloc::AllocError;

// Appends the list of node k, in which nothing is written yet. `blank` is a list of zeros.
pub(crate) fn push_blank(
    tree: &Tree,
    k: u32,
    blank: &mut Vec<u32>,
    table: &mut FlatLists,
) -> Result<(), AllocError>
    requires node { k < length tree.now }
    requires before { AreRows tree.now k table.old }
    ensures { IfOk result (λ _. AreRows tree.now (k + 1) table.new) }
{
    let count = 2 * tree.items(k).len();
    if blank.len() < count {
        blank.resize(count, 0)?;
    }
    table.push(&blank[0..count])
}
