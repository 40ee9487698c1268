// The calls on four nodes one after the other, the nodes after and before each node after each call, a copy, and a list.

use ring_arena::Rings;
use std::test::Fail;

// A call that changes rings.
#[derive(Clone, Copy)]
enum Call {
    Exchange(u32, u32),
    Reverse(u32),
    ReverseAll,
    Unlink(u32),
    LinkAfter(u32, u32),
}

// Makes the call where its nodes are nodes, and the one that is put in is alone.
fn make(r: &mut Rings, call: Call) {
    let n = r.len();
    match call {
        Call::Exchange(a, b) => {
            if a < n && b < n {
                r.exchange(a, b);
            }
        }
        Call::Reverse(d) => {
            if d < n {
                r.reverse(d);
            }
        }
        Call::ReverseAll => r.reverse_all(),
        Call::Unlink(d) => {
            if d < n {
                r.unlink(d);
            }
        }
        Call::LinkAfter(d, x) => {
            if d < n && x < n && d != x && r.next(d) == d {
                r.link_after(d, x);
            }
        }
    }
}

// The node after each of the first four nodes, and the node before each.
fn links(r: &Rings) -> ([u32; 4], [u32; 4]) {
    let mut next = [9; 4];
    let mut prev = [9; 4];
    for d in 0..4u32 {
        if d < r.len() {
            next[d as usize] = r.next(d);
            prev[d as usize] = r.prev(d);
        }
    }
    (next, prev)
}

// Calls one after the other, each with the nodes after and before each node then.
static CALLS: [(Call, [u32; 4], [u32; 4]); 10] = [
    (Call::Exchange(0, 1), [1, 0, 2, 3], [1, 0, 2, 3]),
    (Call::Exchange(1, 2), [1, 2, 0, 3], [2, 0, 1, 3]),
    (Call::Reverse(0), [2, 0, 1, 3], [1, 2, 0, 3]),
    (Call::Unlink(2), [1, 0, 2, 3], [1, 0, 2, 3]),
    (Call::LinkAfter(2, 0), [2, 0, 1, 3], [1, 2, 0, 3]),
    (Call::Exchange(3, 3), [2, 0, 1, 3], [1, 2, 0, 3]),
    (Call::ReverseAll, [1, 2, 0, 3], [2, 0, 1, 3]),
    (Call::Exchange(0, 3), [3, 2, 0, 1], [2, 3, 1, 0]),
    (Call::Unlink(1), [3, 1, 0, 2], [2, 1, 3, 0]),
    (Call::ReverseAll, [2, 1, 3, 0], [3, 1, 0, 2]),
];

#[test]
fn changes_rings(rt: HostRuntime) -> Result<(), Fail> {
    let alloc = rt.alloc();
    let mut r = Rings::new(alloc, 4)?;
    assert_eq!(rt; r.len(), 4);
    assert_eq!(rt; links(&r), ([0, 1, 2, 3], [0, 1, 2, 3]));
    for (call, next, prev) in &CALLS {
        make(&mut r, *call);
        assert_eq!(rt; links(&r), (*next, *prev));
    }
    let copy = r.copy(alloc)?;
    make(&mut r, Call::Reverse(0));
    assert_eq!(rt; links(&r), ([3, 1, 0, 2], [2, 1, 3, 0]));
    assert_eq!(rt; links(&copy), ([2, 1, 3, 0], [3, 1, 0, 2]));
    let next: &[u32] = &[2, 1, 3, 0];
    assert!(rt; copy.list_next(alloc)?.as_slice() == next);
    Ok(())
}
