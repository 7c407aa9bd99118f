// Processors: what a board that keeps its code as words is made of, and the simulation of such words, for every processor.
#![tactic(auto)]

ghost use Rattle.std.specs.Prelude.{◌≡◌, ℕ, true, List, MatchResult};
ghost use Rattle.board.specs.Instructions.{Denotes, InstructionNumbered};
ghost use Rattle.board.specs.Machines.{Operation, arity};
ghost use Rattle.processor.specs.Designs.{Design};
ghost use Rattle.processor.specs.Simulations.{applied, stored_value};
ghost use Rattle.processor.specs.Soundness.{Sound, ResultsInPlaces};

use board::instructions::Instruction;
use faults::Misplaced;
use pattern::places::Place;

pub mod boards;
pub mod faults;
pub mod laws;
pub mod mnemonics;
pub mod naming;
pub mod requests;
pub mod simulation;

// The opcode of a store, which no instruction has.
const STORE: u32 = 63;

// A board's depth limit is at most this, so no more operands wait.
const WAITING_LIMIT: usize = 64;

// The instructions of a board and what carries them out. A value holds the processor's own words, such as a stack or registers.
pub trait Processor: Copy {
    ghost design: { Design };

    // The words that a value holds.
    ghost own: { Self → List ℕ };

    fn depth_limit() -> usize
        ensures { result ≡ design.fixed_part.deepest };

    fn store_place() -> Place
        ensures { result.letter ≡ design.fixed_part.store_letter };

    // The instruction of an opcode.
    fn operation(opcode: u32) -> Option<Instruction>
        ensures { InstructionNumbered design.fixed_part opcode result };

    // The low byte of a first word.
    fn low_byte(depth: usize, operands: usize) -> u8
        ensures { result ≡ design.low_of depth operands };

    fn start() -> Self
        ensures { own result ≡ design.at_start };

    // Whether the first word cannot be carried out here, with so many operands and results.
    fn misplaced(&self, first: u32, operands: usize, results: usize) -> bool
        ensures { result ≡ design.misplaced_at first operands results (own self.now) };

    // Carries out an instruction; nothing changes where it is misplaced.
    fn apply(
        &mut self,
        first: u32,
        instruction: &Instruction,
        payloads: &[u32],
        setting: &[u32],
    ) -> Result<(), Misplaced>
        ensures { (o : Operation) → Denotes instruction.now o → MatchResult result (λ _. own self.new ≡ applied design first o payloads.now setting.now (own self.old)) (λ _. (design.misplaced_at first (arity o) 1 (own self.old) ≡ true) × (own self.new ≡ own self.old)) };

    // Takes the operand of a store; nothing changes where it is misplaced.
    fn take(&mut self, first: u32) -> Result<u32, Misplaced>
        ensures { MatchResult result (λ v. (v ≡ stored_value design first (own self.old)) × (own self.new ≡ design.after_store first (own self.old))) (λ _. (design.misplaced_at first 1 0 (own self.old) ≡ true) × (own self.new ≡ own self.old)) };

    // What a processor owes, so that what is encoded for it runs.
    ghost sound: { Sound design };

    // Each letter of a result makes a PLACE.
    ghost result_places: { ResultsInPlaces design };
}
