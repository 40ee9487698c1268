// A removed vertex.

ghost use Rattle.std.specs.Prelude.{◌≡◌};

use std::marker::Model;

/// A vertex that was removed from a contour, and its neighbours among the vertices that stay, from left to right.
#[derive(Debug, Drop)]
pub struct Removal {
    vertex: u32,
    heads: Vec<u32>,
}

impl Model for Removal {
    ghost use Rattle.std.specs.Prelude.{ℕ, List};

    ghost Value = { ℕ × List ℕ };

    ghost view = { λ removal. (removal.vertex, removal.heads.items) };
}

impl Removal {
    /// The removal of `vertex`, whose neighbours are `heads`.
    pub fn of(vertex: u32, heads: Vec<u32>) -> Removal
        ensures { result ≡ (vertex, heads.items) }
    {
        Removal { vertex, heads }
    }

    /// The removed vertex.
    pub fn vertex(&self) -> u32
        ensures { result ≡ self.now.0 }
    {
        self.vertex
    }

    /// Its neighbours among the vertices that stay, from left to right.
    pub fn heads(&self) -> &[u32]
        ensures { result.now ≡ self.now.1 }
    {
        &self.heads
    }
}
