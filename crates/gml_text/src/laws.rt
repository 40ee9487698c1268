// Laws on the grammar, the layout and the places of faults.

ghost use Rattle.std.specs.Prelude.{◌≡◌, ◌≢◌, ◌++◌, ℕ, List, length};
ghost use Rattle.gml_text.specs.Document.{Document};
ghost use Rattle.gml_text.specs.Grammar.{Spells};
ghost use Rattle.gml_text.specs.Layout.{written};
ghost use Rattle.gml_text.specs.WellFormed.{IsWellFormed};
ghost use Rattle.gml_text.specs.Front.{Front, At};
ghost use Rattle.gml_text.specs.Faults.{IsFault};
ghost use Rattle.gml_text.specs.declared.document.GmlFault.{GmlFault};
ghost use Rattle.gml_text.specs.declared.document.GmlFault.TheVariants.{Memory};

/// Bytes spell at most one document. A document that some bytes spell is well formed, and one that is well formed is spelled by
/// its written layout.
pub fn spelling()
    ensures one { (bytes : List ℕ) (d e : Document) → Spells bytes d → Spells bytes e → d ≡ e }
    ensures well_formed { (bytes : List ℕ) (d : Document) → Spells bytes d → IsWellFormed d }
    ensures written { (d : Document) → IsWellFormed d → Spells (written d) d }
{}

/// A front is a prefix with which some document begins. Each prefix of a front is a front. Bytes have at most one longest front,
/// which is all of them if they spell a document. So at most one fault other than out of memory applies to them.
pub fn fronts()
    ensures shorter { (front more : List ℕ) → Front (front ++ more) → Front front }
    ensures place { (bytes : List ℕ) (m n : ℕ) → At bytes m → At bytes n → m ≡ n }
    ensures whole { (bytes : List ℕ) (d : Document) → Spells bytes d → At bytes (length bytes) }
    ensures fault { (bytes : List ℕ) (one other : GmlFault) → IsFault one bytes
        → IsFault other bytes → one ≢ Memory → other ≢ Memory → one ≡ other }
{}
