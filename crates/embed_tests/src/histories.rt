// A history of three locks, gone through by hand.

use std::test::Fail;
use undo_log::{Step, UndoLog};

// The step of a lock set on this node.
fn lock(node: u32) -> Step {
    Step::Lock {
        block: 0,
        node,
        before: false,
        after: true,
    }
}

// The node of a lock.
fn node_of(s: &Step) -> Option<u32> {
    match s {
        Step::Lock { node, .. } => Some(*node),
        Step::Moves { .. } | Step::Mirror { .. } => None,
    }
}

#[test]
fn goes_back_and_on(rt: HostRuntime) -> Result<(), Fail> {
    let mut log = UndoLog::new(rt.alloc());
    assert!(rt; log.undo().is_err());
    assert!(rt; log.redo().is_err());
    for node in 0..3u32 {
        log.reserve()?;
        log.note(lock(node));
    }
    for node in [2u32, 1] {
        let Ok(s) = log.undo() else {
            return Err(Fail::from("nothing to undo"));
        };
        assert!(rt; node_of(s) == Some(node));
    }
    let Ok(s) = log.redo() else {
        return Err(Fail::from("nothing to redo"));
    };
    assert!(rt; node_of(s) == Some(1));
    log.reserve()?;
    log.note(lock(7));
    assert!(rt; log.redo().is_err());
    for node in [7u32, 1, 0] {
        let Ok(s) = log.undo() else {
            return Err(Fail::from("nothing to undo"));
        };
        assert!(rt; node_of(s) == Some(node));
    }
    assert!(rt; log.undo().is_err());
    Ok(())
}
