// Worked rows, and a graph of some size twice.
ghost use Rattle.std.specs.Prelude.{◌≤◌};
ghost use Rattle.made_graph.specs.Made.{max_asked};

use contract_embed::ContractEmbedder;
use made_summary::summary;
use pair_split::PairSplitter;
use quick_embed::QuickEmbedder;
use std::alloc::{AllocError, Global};
use std::test::Fail;

// The summary by the plain splitter, and the embedder that proposes and checks.
fn text(alloc: Global, n: u32, seed: u64) -> Result<Vec<u8>, AllocError>
    requires least { 6 ≤ n }
    requires most { n ≤ max_asked }
{
    let mut embedder = QuickEmbedder {
        fallback: ContractEmbedder,
    };
    summary(alloc, n, seed, &mut PairSplitter::new(), &mut embedder)
}

#[test]
fn no_turn(rt: HostRuntime) -> Result<(), Fail> {
    let expected: &[u8] = b"made 4 6\nnodes S 0 P 0 R 1\ncount 2\nfirst 0: 0 1 2\nlast 0: 0 2 1\n";
    assert_eq!(rt; text(rt.alloc(), 6, 1)?.as_slice(), expected);
    assert_eq!(rt; text(rt.alloc(), 6, u64::MAX)?.as_slice(), expected);
    Ok(())
}

#[test]
fn one_turn(rt: HostRuntime) -> Result<(), Fail> {
    let expected: &[u8] = b"made 5 8\nnodes S 1 P 1 R 1\ncount 4\nfirst 0: 0 1 2\nlast 0: 0 2 1\n";
    assert_eq!(rt; text(rt.alloc(), 7, 1)?.as_slice(), expected);
    Ok(())
}

#[test]
fn the_same_twice(rt: HostRuntime) -> Result<(), Fail> {
    let once = text(rt.alloc(), 200, 3)?;
    let twice = text(rt.alloc(), 200, 3)?;
    assert_eq!(rt; once.as_slice(), twice.as_slice());
    Ok(())
}
