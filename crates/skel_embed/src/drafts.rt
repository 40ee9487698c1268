// The choices of a block with moves made on them alone.

ghost use Rattle.std.specs.Prelude.{◌≡◌};
ghost use Rattle.std.specs.List.{concat};
ghost use Rattle.skel_embed.specs.Drafts.{choices_moved, CanBeMoved};
ghost use Rattle.skel_embed.specs.Exchanges.{AreWritten};
ghost use Rattle.skel_embed.specs.Flat.{lists_in, AreFlat};
ghost use Rattle.skel_embed.specs.Values.{as_move};

use crate::choices::{Choices, arrange_choice, turn_choice};
use crate::state::Frame;
use moves::Move;
use std::marker::Model;
use std::rc::Rc;

/// The choices that a block is to have: moves are made on them, and the rotation system is made in one pass when all are made
/// (`PlaneBlock::with_choices`). Contracts see the choices of all nodes.
#[derive(Debug, Drop)]
pub struct Draft {
    frame: Rc<Frame>,
    keys: Vec<u32>,
}

impl Model for Draft {
    ghost use Rattle.std.specs.Prelude.{List, ℕ};
    ghost use Rattle.skel_embed.specs.Exchanges.{AreWritten};
    ghost use Rattle.skel_embed.specs.Flat.{lists_in, AreFlat};

    ghost Value = { List (List ℕ) };

    ghost view = { λ d. lists_in d.keys.items d.frame.value.ends.items };

    ghost invariant = { λ d. AreFlat (lists_in d.keys.items d.frame.value.ends.items)
        d.keys.items d.frame.value.ends.items
        × AreWritten (lists_in d.keys.items d.frame.value.ends.items) };
}

impl Draft {
    // The choices with these keys, which end where those of the frame do.
    pub(crate) fn of(frame: Rc<Frame>, keys: Vec<u32>) -> Draft
        requires flat { AreFlat (lists_in keys.items frame.value.ends.items)
            keys.items frame.value.ends.items }
        requires written { AreWritten (lists_in keys.items frame.value.ends.items) }
        ensures { result ≡ lists_in keys.items frame.value.ends.items }
    {
        Draft { frame, keys }
    }

    // The choices, as they are kept.
    pub(crate) fn choices(&self) -> Choices<'_>
        ensures { result ≡ self.now }
    {
        let frame = self.frame.as_ref();
        Choices::of(self.keys.as_slice(), frame.ends.as_slice())
    }

    // The keys of all choices, one after the other.
    pub(crate) fn into_keys(self) -> Vec<u32>
        ensures { result.items ≡ concat self }
    {
        self.keys
    }

    /// Makes a move: a flip reverses the choice of its node, and a permute sets it to its keys. Takes no memory, and time in proportion
    /// to the items of the node.
    pub fn make(&mut self, one: &Move)
        requires { CanBeMoved (as_move one.now) self.old }
        ensures { self.new ≡ choices_moved (as_move one.now) self.old }
    {
        let frame = self.frame.as_ref();
        let ends = frame.ends.as_slice();
        match one {
            Move::Flip(k) => turn_choice(&mut self.keys, ends, *k as usize),
            Move::Permute(k, order) => {
                arrange_choice(&mut self.keys, ends, *k as usize, order.as_slice());
            }
        }
    }
}
