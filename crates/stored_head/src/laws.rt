// What holds of the definitions that the contracts cite.
ghost use Rattle.ranges.specs.Exact.{WorkedExamples};
ghost use Rattle.stored_head.specs.Laws.{StoredLaws, StoredExample};

// One form for each head, no form at the beginning of another, loading undoes saving but for equal names;
// and the worked examples.
pub fn stored_forms_are_exact()
    ensures laws { StoredLaws }
    ensures examples { WorkedExamples × StoredExample }
{
    ranges::definitions_are_exact();
}
