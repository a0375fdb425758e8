//! What is proved of the calls' definitions as such.
ghost use Rattle.evaluator.specs.Examples.{WorkedExamples};

/// The worked examples follow from the definitions.
pub fn examples_stand() -> u8
    ensures { WorkedExamples }
{
    0
}
