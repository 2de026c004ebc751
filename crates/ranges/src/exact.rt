// What holds of the definitions that the contracts cite.
ghost use Rattle.ranges.specs.Exact.{Determined, WorkedExamples};

// The definitions allow one answer to each request, and the worked examples have the stated ones.
#[tactic(auto, using(crate::proofs::Exactly::determined, crate::proofs::Exactly::worked_examples))]
pub fn definitions_are_exact()
    ensures determined { Determined }
    ensures examples { WorkedExamples }
{}
