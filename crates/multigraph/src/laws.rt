// Laws on the first fault and on parts, over the definitions alone.

ghost use Rattle.std.specs.Prelude.{◌≡◌, ◌≢◌};
ghost use Rattle.multigraph.specs.Graph.{Multigraph, IsGraph, IsWithinLimits};
ghost use Rattle.multigraph.specs.Build.{IsFirstFault};
ghost use Rattle.multigraph.specs.Part.{IsPartOnEnds};
ghost use Rattle.multigraph.specs.declared.faults.BuildFault.{BuildFault};
ghost use Rattle.multigraph.specs.declared.faults.BuildFault.TheVariants.{Memory};

/// A multigraph has at most one first fault, and a graph within the limits has none: running out of memory is left out.
pub fn first_fault()
    ensures one { (g : Multigraph) (a b : BuildFault) → IsFirstFault g a → IsFirstFault g b
        → a ≢ Memory → b ≢ Memory → a ≡ b }
    ensures none { (g : Multigraph) (a : BuildFault) → IsGraph g → IsWithinLimits g
        → IsFirstFault g a → a ≡ Memory }
{}

/// The part that edges make is the part that they make on exactly their ends.
pub fn parts_on_ends()
    ensures { IsPartOnEnds }
{}
