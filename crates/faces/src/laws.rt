// The laws of rotation systems and their faces: each is a function without a body, whose contract is the theorem.
//
// The lemmas that are used most, after the name of their module in proofs/:
//   MapSteps       tail-twin, map-permutes, map-face, after-tail, after-dart_from: next darts, around a vertex and along a face
//   MapVertices    map-vertex, vertex-tail, tail-vertex, map-component: vertices and components of the map
//   MapCounts      map-vertices, map-faces, map-components, plane-map, map-plane: V, F and C; plane here and there
//   MapMirror      mirror-order, mirror-system, mirror-after, order-least: the mirror image; the first edge is the least
//   MapCorners     face-once: darts of one vertex, connected without passing it, lie on different faces of a plane map
//   MapBlocks      linked-block, block-one_face: darts of one vertex of a block are so connected
//   MapTwins       block-other_edge, block-moves, block-two_faces: no dart of a block of two edges or more is alone
//   MapLists       member-map, map-member, distinct-map, successor-map, filter-map, first-same: cyclic orders renumbered
//   MapRestricted  restricted-order: the map restricted to edges follows the cyclic orders without the others
//   ListedOnce     listed-orbit, listed-once, listed-count: the lists of faces are the orbits
//   MapParts       part-renumbering, part-plane; MapPartOrders part-orders: a subgraph with numbers of its own
//   MapToLists     map-orders, orders-told: from a map to the lists

ghost use Rattle.faces.specs.FaceLists.{EachPairIsListedOnce, FacesAreOrbits, ListedFacesAreCounted};
ghost use Rattle.faces.specs.Laws.{EdgeOnTwoFaces, EulersInequality, FacePassesOnce, IsolatedVerticesBesides};
ghost use Rattle.faces.specs.Laws.{MapHasComponents, MapHasFaces, MapHasVertices, MapIsRotationSystem};
ghost use Rattle.faces.specs.Laws.{MapTellsRotationSystem, MirrorDiffers, MirrorGoesBack, MirrorIsRotationSystem};
ghost use Rattle.faces.specs.Laws.{MirrorKeepsFaces, MirrorKeepsPlane, MirrorTwice, PlaneWhereMapIs};
ghost use Rattle.faces.specs.Laws.{RestrictionExists, RestrictionKeepsPlane, RotationSystemIsMap};

/// Euler's inequality (Euler 1758, Heffter 1891): for every rotation system of every graph, V + F is at most E + 2C.
pub fn eulers_inequality()
    ensures { EulersInequality }
{}

/// The law that the faces that are listed are the orbits of the face step: each list is an orbit, each pair of a vertex and
/// an edge at it is in exactly one list, and there once, and there are as many lists as faces in Euler's sum, which counts
/// one more for each isolated vertex.
pub fn faces_are_orbits()
    ensures orbits { FacesAreOrbits }
    ensures once { EachPairIsListedOnce }
    ensures counted { ListedFacesAreCounted }
{}

/// The law that a rotation system is a map of darts, the vertices, faces and components of which are its own but for the
/// isolated vertices; so it is plane exactly where the map is.
pub fn rotation_system_is_map()
    ensures is_map { RotationSystemIsMap }
    ensures vertices { MapHasVertices }
    ensures faces { MapHasFaces }
    ensures components { MapHasComponents }
    ensures isolated { IsolatedVerticesBesides }
    ensures plane { PlaneWhereMapIs }
{}

/// The law that the mirror image of a rotation system, which reverses the order around each vertex, is a rotation system
/// with equally many faces, plane exactly where the first is; that mirroring twice changes nothing, and mirroring once does
/// where some vertex has three edges or more.
pub fn mirror_image()
    ensures system { MirrorIsRotationSystem }
    ensures backward { MirrorGoesBack }
    ensures twice { MirrorTwice }
    ensures faces { MirrorKeepsFaces }
    ensures plane { MirrorKeepsPlane }
    ensures differs { MirrorDiffers }
{}

/// The law that in a plane rotation system of a graph whose edges share a block each face passes each vertex at most once,
/// and with two edges or more each edge lies on two faces.
pub fn faces_of_block_are_simple()
    ensures once { FacePassesOnce }
    ensures two_faces { EdgeOnTwoFaces }
{}

/// The law that a rotation system restricted to a subgraph, with numbers of its own, is a rotation system of the subgraph,
/// and is plane where the whole is: so each subgraph of a graph with a plane rotation system has one.
pub fn restriction_keeps_plane()
    ensures exists { RestrictionExists }
    ensures plane { RestrictionKeepsPlane }
{}

/// The law that a map of darts whose vertices are those of a graph is the map of one rotation system.
pub fn maps_are_rotation_systems()
    ensures exists { MapIsRotationSystem }
    ensures unique { MapTellsRotationSystem }
{}
