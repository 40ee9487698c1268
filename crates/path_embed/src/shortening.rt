// Items left out as long as the rest has no plane rotation system: pieces first, and last each item alone.

ghost use Rattle.std.specs.Prelude.{◌<◌, IfOk};
ghost use Rattle.graph_theory.specs.Triconnected.{IsTriconnected};
ghost use Rattle.path_embed.specs.Found.{IsRest};

use crate::dropping::{Piece, leave_out, marks_of};
use crate::marks::mark;
use crate::orders::{Order, items_in};
use crate::rest::Rest;
use multigraph::Graph;
use std::alloc::{AllocError, Global};

// How few items are tried alone at once.
const FEW: usize = 12;

impl Piece {
    // The first of so many pieces of a list of this length. It begins half a piece after the list: edges near the root of a search,
    // which are the first of an order, are often needed.
    fn first(count: usize, pieces: usize) -> Piece
        requires { 0 < pieces }
    {
        let size = count / pieces;
        Piece {
            from: size / 2,
            size,
        }
    }

    // The piece after it.
    fn next(self) -> Piece {
        Piece {
            from: self.from.saturating_add(self.size),
            size: self.size,
        }
    }

    // The piece at the same place, of no more items than these.
    fn at_most(self, size: usize) -> Piece {
        Piece {
            from: self.from,
            size: self.size.min(size),
        }
    }
}

// Goes once over so many pieces of the items in this order, and leaves out those that can be. Returns whether some were.
fn pass(
    alloc: Global,
    g: &Graph,
    rest: &mut Rest,
    order: Order,
    pieces: usize,
) -> Result<bool, AllocError>
    requires triconnected { IsTriconnected g.now }
    requires rest { IsRest g.now rest.old }
    requires pieces { 0 < pieces }
    ensures { IfOk result (λ _. IsRest g.now rest.new) }
{
    let mut list = items_in(alloc, g, rest, order)?;
    let mut piece = Piece::first(list.len(), pieces);
    let mut any = false;
    for _turn in 0..u64::MAX {
        if piece.size == 0 || piece.from >= list.len() {
            break;
        }
        let left_out = marks_of(alloc, rest.count(), &list, piece)?;
        if leave_out(alloc, g, rest, &left_out)? {
            list = items_in(alloc, g, rest, order)?;
            piece = piece.at_most(list.len() / pieces);
            any = true;
        } else {
            piece = piece.next();
        }
    }
    Ok(any)
}

// Leaves out pieces in both orders by turns: halves, and smaller ones where none of these can be left out.
fn leave_out_pieces(alloc: Global, g: &Graph, rest: &mut Rest) -> Result<(), AllocError>
    requires triconnected { IsTriconnected g.now }
    requires rest { IsRest g.now rest.old }
    ensures { IfOk result (λ _. IsRest g.now rest.new) }
{
    let mut pieces: usize = 2;
    for _turn in 0..u64::MAX {
        if rest.count() <= FEW || pieces > rest.count() {
            break;
        }
        let fronds = pass(alloc, g, rest, Order::Fronds, pieces)?;
        let others = pass(alloc, g, rest, Order::OffTree, pieces)?;
        if !fronds && !others {
            pieces = pieces.saturating_mul(2);
        }
    }
    Ok(())
}

// Leaves out item after item, until each one is needed.
fn leave_out_items(alloc: Global, g: &Graph, rest: &mut Rest) -> Result<(), AllocError>
    requires { IsRest g.now rest.old }
    ensures { IfOk result (λ _. IsRest g.now rest.new) }
{
    let mut item: u32 = 0;
    let mut needed: usize = 0;
    for _turn in 0..u64::MAX {
        if needed >= rest.count() {
            break;
        }
        if item as usize >= rest.count() {
            item = 0;
        }
        let mut left_out = vec![in alloc; false; rest.count()]?;
        mark(&mut left_out, item);
        if leave_out(alloc, g, rest, &left_out)? {
            needed = 0;
        } else {
            item = item.saturating_add(1);
            needed = needed.saturating_add(1);
        }
    }
    Ok(())
}

// What is left of a triconnected graph without plane rotation system when all is left out that can be.
pub(crate) fn shorten(alloc: Global, g: &Graph) -> Result<Rest, AllocError>
    requires { IsTriconnected g.now }
    ensures { IfOk result (IsRest g.now) }
{
    let mut rest = Rest::all(alloc, g)?;
    leave_out_pieces(alloc, g, &mut rest)?;
    leave_out_items(alloc, g, &mut rest)?;
    Ok(rest)
}
