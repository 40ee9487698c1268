// What follows from the definitions alone.

ghost use Rattle.std.specs.Prelude.{◌≡◌, ℕ, List, Some, map};
ghost use Rattle.gml_text.specs.Document.{Document};
ghost use Rattle.gml_text.specs.WellFormed.{IsWellFormed};
ghost use Rattle.gml_graph.specs.Answer.{HasSoundGraph};
ghost use Rattle.gml_graph.specs.Start.{start_text};
ghost use Rattle.gml_graph.specs.Marked.{put_first, marked, numbers_text, AreQuotable, StartsAtTexts};

/// Where a document has a graph, it is within the limits and without loops, and each vertex has an id of its own.
pub fn sound_graph()
    ensures { (d : Document) → HasSoundGraph d }
{}

/// A document whose nodes carry texts without quotes has a text if the document has one. What is put into a node is found there.
/// Texts of numbers have no quotes. The graph of a document whose nodes carry the texts of the edges at each vertex, in any
/// order, is the graph of the document, which starts at these orders.
pub fn marked_documents()
    ensures well_formed { (texts : List (List ℕ)) (d : Document) → AreQuotable texts → IsWellFormed d
        → IsWellFormed (marked texts d) }
    ensures text { (key text : List ℕ) (d : Document)
        → start_text key (put_first key text d) ≡ Some text }
    ensures quotable { (lists : List (List ℕ)) → AreQuotable (map numbers_text lists) }
    ensures start { (d : Document) → StartsAtTexts d }
{}
