// Laws about the definition of blocks: each is a function without a body, whose contract is the theorem.
ghost use Rattle.std.specs.Prelude.{◌≡◌, ◌<◌, ℕ, length};
ghost use Rattle.multigraph.specs.Graph.{Multigraph};
ghost use Rattle.multigraph.specs.Part.{GraphPart, IsPart};
ghost use Rattle.graph_theory.specs.Block.{IsOneBlock};
ghost use Rattle.blocks.specs.Blocks.{BlockStructure, IsBlockStructure, block_at};

/// A multigraph has at most one structure of blocks, cut vertices and components: what meets the definition is determined.
pub fn one_structure()
    ensures { (g : Multigraph) (a b : BlockStructure) → IsBlockStructure g a → IsBlockStructure g b
        → a ≡ b }
{}

/// The part of a multigraph that the edges of one of its blocks make is one block.
pub fn part_of_a_block_is_one_block()
    ensures { (g : Multigraph) (s : BlockStructure) (b : ℕ) (part : GraphPart) → IsBlockStructure g s → b < length s.blocks
        → IsPart g (block_at s.blocks b) part → IsOneBlock part.graph }
{}
