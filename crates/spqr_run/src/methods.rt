// The methods by which blocks are split and embedded, for reports and for summaries.

use path_embed::PathEmbedder;
use quick_embed::QuickEmbedder;
use split_comp::SearchSplitter as BlockSplitter;

/// How blocks are split: along a palm tree.
pub fn block_splitter() -> BlockSplitter {
    BlockSplitter::new()
}

/// How triconnected graphs are embedded: quickly, and path by path if no quick result is accepted.
pub fn block_embedder() -> QuickEmbedder<PathEmbedder> {
    QuickEmbedder {
        fallback: PathEmbedder,
    }
}
