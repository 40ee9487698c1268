// What the search holds: entries of its stack, cuts of the stack, and darts. Vertices go by their numbers in the palm tree.

/// An entry of the stack: an edge under a name, with its upper and its lower end, whether it is the tree edge of its lower
/// end, and the place in the stack at which what belongs to it starts: its own place, or that of the first entry below its
/// lower end.
#[derive(Clone, Copy, Drop)]
pub(crate) struct StackEntry {
    pub name: u32,
    pub up: u32,
    pub low: u32,
    pub tree: bool,
    pub start: usize,
}

/// A cut of the stack at a place, made when the search was at the vertex `low`: of the entries from there on, `up` is the
/// least upper end.
#[derive(Clone, Copy, Drop)]
pub(crate) struct StackCut {
    pub start: usize,
    pub up: u32,
    pub low: u32,
}

/// A dart: an edge where it begins, whether it is a tree edge, its other end, the number that it reaches, and its class.
#[derive(Clone, Copy, Drop)]
pub(crate) struct Dart {
    pub edge: u32,
    pub tree: bool,
    pub far: u32,
    pub reach: u32,
    pub class: u32,
}
