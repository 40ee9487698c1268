// Points of the plane, one for each vertex.

ghost use Rattle.std.specs.Prelude.{◌≡◌, ◌<◌, length, IfOk};
ghost use Rattle.grid_drawing.specs.Drawing.{point_at};

use std::alloc::{AllocError, Global};
use std::marker::Model;

/// A point for each vertex of a graph, by its coordinates, x to the right and y upwards. Contracts view it as the list of the
/// points.
#[derive(Debug, Drop)]
pub struct Points {
    held: Vec<(u32, u32)>,
}

impl Model for Points {
    ghost use Rattle.std.specs.Prelude.{List, ℕ};

    ghost Value = { List (ℕ × ℕ) };

    ghost view = { λ points. points.held.items };
}

impl Points {
    /// These points, in order of the vertices. Fails only if memory runs out.
    pub fn of(alloc: Global, points: &[(u32, u32)]) -> Result<Points, AllocError>
        ensures { IfOk result (λ made. made ≡ points.now) }
    {
        Ok(Points {
            held: Vec::from_slice(alloc, points)?,
        })
    }

    // These points, kept as they are.
    pub(crate) fn from_vec(points: Vec<(u32, u32)>) -> Points
        ensures { result ≡ points.items }
    {
        Points { held: points }
    }

    /// How far vertex `v` lies to the right.
    pub fn x(&self, v: u32) -> u32
        requires { v < length self.now }
        ensures { result ≡ (point_at self.now v).0 }
    {
        self.held[v as usize].0
    }

    /// How high vertex `v` lies.
    pub fn y(&self, v: u32) -> u32
        requires { v < length self.now }
        ensures { result ≡ (point_at self.now v).1 }
    {
        self.held[v as usize].1
    }

    /// The points, in order of the vertices.
    pub fn as_slice(&self) -> &[(u32, u32)]
        ensures { result.now ≡ self.now }
    {
        self.held.as_slice()
    }
}
