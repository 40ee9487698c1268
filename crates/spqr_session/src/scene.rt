// What stays for a whole run, as commands have it.
use blocks::Blocks;
use gml_graph::Named;
use gml_text::Doc;

/// The document, its graph with the ids, and the structure of its blocks. With the trees and the certificates of the blocks, which are
/// on the board, they are the setting of a session.
#[derive(Drop)]
pub struct Scene {
    pub doc: Doc,
    pub named: Named,
    pub blocks: Blocks,
}
