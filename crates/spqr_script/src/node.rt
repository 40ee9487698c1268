// The lines of the nodes of a block's tree.
ghost use Rattle.std.specs.Prelude.{◌≡◌, ◌<◌, ◌++◌, length, IfOk, OnOk, All};
ghost use Rattle.pair_split.specs.Tutte.{node_at};
ghost use Rattle.spqr_script.specs.Node.{kind_word, item_text, spaced_items, node_text, IsItemOf, IsNodeOf};

use crate::outer::push_vertices;
use decimals::{push_number, push_word};
use multigraph::Part;
use spqr_tree::{Item, Kind, Tree, What};
use std::alloc::{AllocError, Global};

// The letter of a kind.
fn word_of(kind: Kind) -> &'static [u8]
    ensures { result.now ≡ kind_word kind }
{
    match kind {
        Kind::S => b"S",
        Kind::P => b"P",
        Kind::R => b"R",
        Kind::B => b"B",
    }
}

// Appends an item to a text.
fn push_item(out: &mut Vec<u8>, part: &Part, item: Item) -> Result<(), AllocError>
    requires { IsItemOf part.now item }
    ensures { OnOk result (out.new.items ≡ out.old.items ++ item_text part.now item) }
{
    push_number(out, u128::from(part.edge(item.key)))?;
    push_word(out, b":")?;
    push_number(out, u128::from(part.vertex(item.a)))?;
    push_word(out, b"-")?;
    push_number(out, u128::from(part.vertex(item.b)))?;
    match item.what {
        What::Real(_) => Ok(()),
        What::Link(node) => {
            push_word(out, b"@")?;
            push_number(out, u128::from(node))
        }
    }
}

// Appends the items, each with a space before it to a text.
fn push_items(out: &mut Vec<u8>, part: &Part, items: &[Item]) -> Result<(), AllocError>
    requires { All (IsItemOf part.now) items.now }
    ensures { OnOk result (out.new.items ≡ out.old.items ++ spaced_items part.now items.now) }
{
    for item in items {
        push_word(out, b" ")?;
        push_item(out, part, *item)?;
    }
    Ok(())
}

/// Appends the line `node K KIND V V .. | ITEM ITEM ..` to a text: node `k` of the tree of a part, in the numbers of the whole
/// graph. Fails only if memory runs out; the text may then end in a part of the line.
pub fn push_node_line(out: &mut Vec<u8>, part: &Part, t: &Tree, k: u32) -> Result<(), AllocError>
    requires node { k < length t.now }
    requires within { IsNodeOf part.now (node_at t.now k) }
    ensures { OnOk result (out.new.items ≡ out.old.items ++ node_text part.now t.now k) }
{
    push_word(out, b"node ")?;
    push_number(out, u128::from(k))?;
    push_word(out, b" ")?;
    push_word(out, word_of(t.kind(k)))?;
    push_vertices(out, part, t.vertices(k))?;
    push_word(out, b" |")?;
    push_items(out, part, t.items(k))?;
    push_word(out, b"\n")
}

/// The line `node K KIND V V .. | ITEM ITEM ..`: node `k` of the tree of a part, in the numbers of the whole graph.
/// Fails only if memory runs out.
/// For callers of the library: the program does not call it.
pub fn node_line(alloc: Global, part: &Part, t: &Tree, k: u32) -> Result<Vec<u8>, AllocError>
    requires node { k < length t.now }
    requires within { IsNodeOf part.now (node_at t.now k) }
    ensures { IfOk result (λ text. text.items ≡ node_text part.now t.now k) }
{
    let mut out = Vec::new(alloc);
    push_node_line(&mut out, part, t, k)?;
    Ok(out)
}
