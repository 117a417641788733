ghost use Rattle.syntax.specs.Examples.{WorkedExamples};
ghost use Rattle.syntax.specs.Laws.{RoundTrip};

// A theorem: to decode and to encode undo each other.
pub fn round_trip()
    ensures { RoundTrip }
{}

// A theorem: what the format makes of some bytes.
pub fn worked_examples()
    ensures { WorkedExamples }
{}
