// The law on moves and locks: a function without a body, whose contract is the theorem.

ghost use Rattle.embed_convert.specs.Laws.{MovesKeepLocks};

/// The law that the moves to a rotation system with the same choices at the locked nodes name no locked node.
pub fn moves_keep_locks()
    ensures { MovesKeepLocks }
{}
