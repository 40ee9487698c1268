// What a subdivision of K3,3 is without one of its paths: a subdivision of K4. A path from the inside of one of its paths to the inside
// of the opposite one makes it a subdivision of K3,3 again.

use crate::reading::Proposal;
use kuratowski::Pattern;
use quick_rotation::EdgeEnds;
use quick_rotation::access::{at, number};
use std::alloc::{AllocError, Global};

// A subdivision of K4: its corners, and the paths between them as lists of darts, each from the lesser corner, in the order 01, 23,
// 02, 13, 03, 12; so path k is opposite to path k ^ 1.
#[derive(Drop)]
pub(crate) struct Tetrahedron {
    corners: Vec<u32>,
    pub(crate) paths: Vec<Vec<u32>>,
}

// The darts of the path that begins at the vertex and leads along these edges.
fn darts_along(
    alloc: Global,
    list: &EdgeEnds,
    from: u32,
    edges: &[u32],
) -> Result<Vec<u32>, AllocError> {
    let mut darts = Vec::with_capacity(alloc, edges.len())?;
    let mut here = from;
    for edge in edges {
        let first = edge.saturating_mul(2);
        let dart = if list.tail(first) == here {
            first
        } else {
            first ^ 1
        };
        darts.push(dart)?;
        here = list.head(dart);
    }
    Ok(darts)
}

// Appends the path from its end to its beginning.
fn put_back(path: &mut Vec<u32>, darts: &[u32]) -> Result<(), AllocError> {
    for dart in darts.iter().rev() {
        path.push(*dart ^ 1)?;
    }
    Ok(())
}

// The edges of the path from its beginning to its end.
fn forth(alloc: Global, darts: &[u32]) -> Result<Vec<u32>, AllocError> {
    let mut edges = Vec::with_capacity(alloc, darts.len())?;
    for dart in darts {
        edges.push(*dart / 2)?;
    }
    Ok(edges)
}

// The edges of the path from its end to its beginning.
fn back(alloc: Global, darts: &[u32]) -> Result<Vec<u32>, AllocError> {
    let mut edges = Vec::with_capacity(alloc, darts.len())?;
    for dart in darts.iter().rev() {
        edges.push(*dart / 2)?;
    }
    Ok(edges)
}

// The place in a path of the dart that leaves the vertex; the length of the path where there is none.
fn place_of(list: &EdgeEnds, darts: &[u32], vertex: u32) -> usize {
    for (place, dart) in darts.iter().enumerate() {
        if list.tail(*dart) == vertex {
            return place;
        }
    }
    darts.len()
}

impl Proposal {
    // The darts from vertex i of the first three to vertex j of the last three of a subdivision of K3,3.
    fn darts(
        &self,
        alloc: Global,
        list: &EdgeEnds,
        i: usize,
        j: usize,
    ) -> Result<Vec<u32>, AllocError> {
        let k = i.saturating_mul(3).saturating_add(j);
        let (from, _) = self.ends(k);
        match self.paths.get(k) {
            None => Ok(Vec::new(alloc)),
            Some(path) => darts_along(alloc, list, from, path),
        }
    }

    // The same darts in the other direction.
    fn darts_back(
        &self,
        alloc: Global,
        list: &EdgeEnds,
        i: usize,
        j: usize,
    ) -> Result<Vec<u32>, AllocError> {
        let mut path = Vec::new(alloc);
        put_back(&mut path, &self.darts(alloc, list, i, j)?)?;
        Ok(path)
    }
}

// Of the numbers 0, 1 and 2 the other two.
fn others(k: usize) -> (usize, usize) {
    match k {
        0 => (1, 2),
        1 => (2, 0),
        _ => (0, 1),
    }
}

impl Tetrahedron {
    // What the subdivision of K3,3 is without path k.
    pub(crate) fn without(
        alloc: Global,
        list: &EdgeEnds,
        whole: &Proposal,
        k: usize,
    ) -> Result<Tetrahedron, AllocError> {
        let (i, j) = (k / 3, k % 3);
        let ((a, b), (c, d)) = (others(i), others(j));
        let mut first = whole.darts_back(alloc, list, i, c)?;
        first.extend_from_slice(&whole.darts(alloc, list, i, d)?)?;
        let mut second = whole.darts(alloc, list, a, j)?;
        put_back(&mut second, &whole.darts(alloc, list, b, j)?)?;
        let mut paths = Vec::new(alloc);
        paths.push(first)?;
        paths.push(second)?;
        paths.push(whole.darts_back(alloc, list, a, c)?)?;
        paths.push(whole.darts_back(alloc, list, b, d)?)?;
        paths.push(whole.darts_back(alloc, list, b, c)?)?;
        paths.push(whole.darts_back(alloc, list, a, d)?)?;
        let mut corners = Vec::new(alloc);
        corners.push(whole.branch_vertex(c.saturating_add(3)))?;
        corners.push(whole.branch_vertex(d.saturating_add(3)))?;
        corners.push(whole.branch_vertex(a))?;
        corners.push(whole.branch_vertex(b))?;
        Ok(Tetrahedron { corners, paths })
    }

    // Path k.
    pub(crate) fn path(&self, k: usize) -> &[u32] {
        match self.paths.get(k) {
            None => &[],
            Some(path) => path,
        }
    }

    // The edges of the path from one corner to another.
    fn between(&self, alloc: Global, from: u32, to: u32) -> Result<Vec<u32>, AllocError> {
        let k = match (from.min(to), from.max(to)) {
            (0, 1) => 0,
            (2, 3) => 1,
            (0, 2) => 2,
            (1, 3) => 3,
            (0, 3) => 4,
            _ => 5,
        };
        if from < to {
            forth(alloc, self.path(k))
        } else {
            back(alloc, self.path(k))
        }
    }

    // Appends the paths from one of the last two of these corners to the first two.
    fn put_across(
        &self,
        alloc: Global,
        from: u32,
        to: (u32, u32),
        paths: &mut Vec<Vec<u32>>,
    ) -> Result<(), AllocError> {
        paths.push(self.between(alloc, from, to.0)?)?;
        paths.push(self.between(alloc, from, to.1)?)?;
        Ok(())
    }

    // The subdivision of K3,3 with this way from the inside of path 2k + 1 to the inside of path 2k.
    pub(crate) fn with_way(
        &self,
        alloc: Global,
        list: &EdgeEnds,
        k: usize,
        way: &[u32],
    ) -> Result<Proposal, AllocError> {
        let (from, to, from_other, to_other) = match k {
            0 => (0, 1, 2, 3),
            1 => (0, 2, 1, 3),
            _ => (0, 3, 1, 2),
        };
        let y = list.tail(at(way, 0));
        let x = list.head(at(way, number(way.len().saturating_sub(1))));
        let (to_x, from_x) = parted(list, self.path(k.saturating_mul(2)), x);
        let (to_y, from_y) = parted(list, self.path(k.saturating_mul(2).saturating_add(1)), y);
        let mut paths = Vec::new(alloc);
        paths.push(back(alloc, way)?)?;
        paths.push(back(alloc, to_x)?)?;
        paths.push(forth(alloc, from_x)?)?;
        paths.push(forth(alloc, to_y)?)?;
        self.put_across(alloc, from_other, (from, to), &mut paths)?;
        paths.push(back(alloc, from_y)?)?;
        self.put_across(alloc, to_other, (from, to), &mut paths)?;
        Ok(Proposal {
            kind: Pattern::K33,
            branch: self.branch(alloc, (x, from_other, to_other), (y, from, to))?,
            paths,
        })
    }

    // Six branch vertices, two of them new, and four of them corners.
    fn branch(
        &self,
        alloc: Global,
        first: (u32, u32, u32),
        last: (u32, u32, u32),
    ) -> Result<Vec<u32>, AllocError> {
        let mut branch = Vec::new(alloc);
        branch.push(first.0)?;
        branch.push(at(&self.corners, first.1))?;
        branch.push(at(&self.corners, first.2))?;
        branch.push(last.0)?;
        branch.push(at(&self.corners, last.1))?;
        branch.push(at(&self.corners, last.2))?;
        Ok(branch)
    }
}

// The path up to the vertex, and from there on.
fn parted<'a>(list: &EdgeEnds, darts: &'a [u32], vertex: u32) -> (&'a [u32], &'a [u32]) {
    let place = place_of(list, darts, vertex).min(darts.len());
    (&darts[..place], &darts[place..])
}
