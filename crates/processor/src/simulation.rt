// The simulation of a list of words.
ghost use Rattle.std.specs.Prelude.{◌≡◌, ◌/◌, ◌∷◌, length, Some, MatchResult};
ghost use Rattle.board.specs.Instructions.{Denotes};
ghost use Rattle.board.specs.Machines.{Operation};
ghost use Rattle.processor.specs.Faults.{simulator_number, simulator_place};
ghost use Rattle.processor.specs.Simulations.{entry_of, operation_entry, GoesOn, Stops, Simulated, SimulationDenied};

use crate::faults::SimulatorFault;
use crate::{Processor, STORE};
use board::instructions::Instruction;
use tree::nodes::{LAST_VARIABLE, VARIABLES};

// A processor, and what it has made of the variables so far.
#[derive(Drop)]
struct Simulator<P: Processor> {
    processor: P,
    setting: [u32; VARIABLES],
    ghost sized: { length setting ≡ 64 },
}

// The first word of an instruction or a store, the index where it stands, and the words after it.
#[derive(Clone, Copy)]
struct Fetched<'a> {
    place: usize,
    first: u32,
    after: &'a [u32],
}

impl<P: Processor> Simulator<P> {
    ghost use Rattle.processor.specs.Simulators.{running_of};

    // Carries out the store that was fetched; the words after it.
    fn store_step<'a>(&mut self, fetched: Fetched<'a>) -> Result<&'a [u32], SimulatorFault>
        requires { fetched.first / 256 ≡ 63 }
        ensures { MatchResult result (λ rest. GoesOn P.Processor.design fetched.entry.place (fetched.entry.first ∷ fetched.entry.after.now) (running_of self.old) rest.now (running_of self.new)) (λ e. Stops P.Processor.design fetched.entry.place (fetched.entry.first ∷ fetched.entry.after.now) (running_of self.old) (simulator_number e) (simulator_place e)) }
    {
        let Fetched {
            place,
            first,
            after,
        } = fetched;
        if self.processor.misplaced(first, 1, 0) {
            return Err(SimulatorFault::Misplaced(place));
        }
        let [variable, rest @ ..] = after else {
            return Err(SimulatorFault::PayloadBarred(place));
        };
        if *variable > LAST_VARIABLE {
            return Err(SimulatorFault::PayloadBarred(place));
        }
        let value = self
            .processor
            .take(first)
            .map_err(|_| SimulatorFault::Misplaced(place))?;
        self.setting[*variable as usize] = value;
        Ok(rest)
    }

    // Carries out the instruction that was fetched; the words after it.
    fn operation_step<'a>(
        &mut self,
        instruction: &Instruction,
        fetched: Fetched<'a>,
    ) -> Result<&'a [u32], SimulatorFault>
        requires { (o : Operation) × (entry_of P.Processor.design (fetched.first / 256) ≡ Some (operation_entry o)) × Denotes instruction.now o }
        ensures { MatchResult result (λ rest. GoesOn P.Processor.design fetched.entry.place (fetched.entry.first ∷ fetched.entry.after.now) (running_of self.old) rest.now (running_of self.new)) (λ e. Stops P.Processor.design fetched.entry.place (fetched.entry.first ∷ fetched.entry.after.now) (running_of self.old) (simulator_number e) (simulator_place e)) }
    {
        let Fetched {
            place,
            first,
            after,
        } = fetched;
        if self
            .processor
            .misplaced(first, instruction.meaning.operands, 1)
        {
            return Err(SimulatorFault::Misplaced(place));
        }
        if instruction.meaning.leaves == 0 {
            self.processor
                .apply(first, instruction, &[], &self.setting)
                .map_err(|_| SimulatorFault::Misplaced(place))?;
            return Ok(after);
        }
        let [payload, rest @ ..] = after else {
            return Err(SimulatorFault::PayloadBarred(place));
        };
        let payloads = [*payload];
        if !instruction.admits(&payloads) {
            return Err(SimulatorFault::PayloadBarred(place));
        }
        self.processor
            .apply(first, instruction, &payloads, &self.setting)
            .map_err(|_| SimulatorFault::Misplaced(place))?;
        Ok(rest)
    }

    // Carries out the instruction or store that was fetched; the words after it.
    fn step<'a>(&mut self, fetched: Fetched<'a>) -> Result<&'a [u32], SimulatorFault>
        ensures { MatchResult result (λ rest. GoesOn P.Processor.design fetched.entry.place (fetched.entry.first ∷ fetched.entry.after.now) (running_of self.old) rest.now (running_of self.new)) (λ e. Stops P.Processor.design fetched.entry.place (fetched.entry.first ∷ fetched.entry.after.now) (running_of self.old) (simulator_number e) (simulator_place e)) }
    {
        let opcode = fetched.first / 256;
        if opcode == STORE {
            return self.store_step(fetched);
        }
        let Some(instruction) = P::operation(opcode) else {
            return Err(SimulatorFault::UnknownOpcode(fetched.place));
        };
        self.operation_step(&instruction, fetched)
    }
}

// Runs the words from the variables: they become what the instructions, in order, make of them. On a refusal none is changed.
pub fn simulate<P: Processor>(words: &[u32], variables: &mut [u32]) -> Result<(), SimulatorFault>
    ensures { MatchResult result (λ _. Simulated P.Processor.design words.now variables.old variables.new) (λ e. (variables.new ≡ variables.old) × SimulationDenied P.Processor.design words.now variables.old (simulator_number e) (simulator_place e)) }
{
    if variables.len() != VARIABLES {
        return Err(SimulatorFault::WrongCount(variables.len()));
    }
    let mut setting = [0; VARIABLES];
    setting.copy_from_slice(variables);
    let mut simulator = Simulator {
        processor: P::start(),
        setting,
    };
    let mut rest = words;
    while let [first, after @ ..] = rest {
        let fetched = Fetched {
            place: words.len() - rest.len(),
            first: *first,
            after,
        };
        rest = simulator.step(fetched)?;
    }
    variables.copy_from_slice(&simulator.setting);
    Ok(())
}
