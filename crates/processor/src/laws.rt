// What is true of every processor, for whoever reads the contracts.
ghost use Rattle.processor.specs.CodedBoards.{EncodedIsRun, WaitsWithin};
ghost use Rattle.processor.specs.Meanings.{EncodedRuns};

use crate::Processor;

// Code that a board can take, written as words, is never refused by a simulation, and does what the meanings of its operations say.
pub fn encoded_runs()
    ensures { EncodedRuns }
{}

// What a board has encoded the simulator never refuses with 64 variables, and it leaves the end setting.
pub fn encoded_is_run<P: Processor>()
    ensures { EncodedIsRun P.Processor }
{}

// No more operands wait than the depth limit allows.
pub fn waits_within<P: Processor>()
    ensures { WaitsWithin P.Processor }
{}
