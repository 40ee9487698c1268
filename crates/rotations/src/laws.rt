// Laws on where lists make no rotation system, over the definitions alone.

ghost use Rattle.std.specs.Prelude.{◌≡◌, ℕ, List};
ghost use Rattle.multigraph.specs.Graph.{Multigraph};
ghost use Rattle.rotations.specs.Given.{AreArranged, IsFirstBad};

/// There is at most one least bad number, and none where the lists arrange the edges of each vertex.
pub fn first_bad()
    ensures one { (g : Multigraph) (entries : List (ℕ × List ℕ)) (v w : ℕ) → IsFirstBad g entries v
        → IsFirstBad g entries w → v ≡ w }
    ensures none { (g : Multigraph) (entries : List (ℕ × List ℕ)) (v : ℕ) → AreArranged g entries
        → IsFirstBad g entries v → ⊥ }
{}
