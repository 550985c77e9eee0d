// The worked examples of the definitions, as one fact.
ghost use Rattle.dispatch.specs.Examples.{WorkedExamples};

// Does nothing: its contract says what the rules, placing and the run answer in small cases.
pub fn worked_examples()
    ensures { WorkedExamples }
{}
