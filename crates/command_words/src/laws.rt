// The law on words that `clap` reads: a function without a body, whose contract is the theorem.
ghost use Rattle.command_words.specs.Laws.{OtherWordsAreRefused, ThreeWordsAreTaken};

/// The law that `clap`, by its clauses on simple commands, takes any three words that do not begin with `-`, so that on them it
/// fails only if memory runs out; and that it finds a fault in any other number of such words.
pub fn three_words_are_taken()
    ensures taken { ThreeWordsAreTaken }
    ensures refused { OtherWordsAreRefused }
{}
