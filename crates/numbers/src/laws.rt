ghost use Rattle.numbers.specs.Examples.{WorkedExamples};
ghost use Rattle.numbers.specs.Laws.{NumberLaws};

// A theorem: what wrapping, dividing and holding at the ends come to.
pub fn number_laws()
    ensures { NumberLaws }
{}

// A theorem: what the two reckonings make of some numbers.
pub fn worked_examples()
    ensures { WorkedExamples }
{}
