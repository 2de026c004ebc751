// What holds of the definitions that `read_request` cites.
ghost use Rattle.planning.specs.Grammar.{Exact};

// What they read is what the words say in their written form, and words that say a request are read.
pub fn reading_is_exact()
    ensures { Exact }
{}
