// The laws on the longest face: each is a function without a body, whose contract is the theorem.

ghost use Rattle.long_face.specs.Laws.{TableBoundsFaces, WalkLeadsToLongest, WantedIsReached};

/// The law that weights of the items of a block's tree that bound the faces of the skeletons bound the faces of every plane
/// rotation system of the block.
pub fn weights_bound_faces()
    ensures { TableBoundsFaces }
{}

/// The law that faces that are wanted of the skeletons, one of which weighs as much as any face can, are reached: some plane rotation
/// system of the block has the choices that make them faces, and a face of this length.
pub fn wanted_faces_are_reached()
    ensures { WantedIsReached }
{}

/// The law that a walk from the top leads to a longest face: each node that is asked for a dart by its parent wants the heaviest face of
/// it, and asks the nodes beyond the links on this face for the opposite darts.
pub fn walk_leads_to_longest()
    ensures { WalkLeadsToLongest }
{}
