// Boards: all that a selector knows of one.
#![tactic(auto)]

ghost use Rattle.std.specs.Prelude.{◌≡◌, ◌<◌, ◌≤◌, length, MatchOption, MatchResult, slice_index};
ghost use Rattle.pattern.specs.Letters.{letters_of};
ghost use Rattle.board.specs.Acts.{IssueDenied, Issued, StoreDenied, Stored, RunFails, Ran};
ghost use Rattle.board.specs.Faults.{board_number, board_place, run_number, run_place};
ghost use Rattle.board.specs.Instructions.{InstructionNamed};
ghost use Rattle.board.specs.Laws.{Lawful};
ghost use Rattle.board.specs.Machines.{Machine};
ghost use Rattle.board.specs.States.{State, free_in, waiting_in, depth_in};

use faults::{BoardFault, RunFault};
use instructions::Instruction;
use pattern::names::ShortName;
use pattern::places::Place;

pub mod faults;
pub mod instructions;

// Takes instructions and stores, and runs what it took. A refusal changes neither the machine nor the state.
pub trait Board {
    // What is fixed.
    ghost machine: { Self → Machine };

    ghost state: { Self → State };

    fn depth_limit(&self) -> usize
        ensures { result ≡ (machine self.now).deepest };

    fn store_place(&self) -> Place
        ensures { result.letter ≡ (machine self.now).store_letter };

    // The instruction of a mnemonic.
    fn instruction(&self, mnemonic: &ShortName) -> Option<Instruction>
        ensures { InstructionNamed (machine self.now) (letters_of mnemonic.now) result };

    fn free_words(&self) -> usize
        ensures { result ≡ free_in (state self.now) };

    // How many operands wait.
    fn waiting_count(&self) -> usize
        ensures { result ≡ depth_in (state self.now) };

    // The PLACE of the operand at that depth, from 0.
    fn waiting_place(&self, depth: usize) -> Option<Place>
        ensures { MatchOption result (depth_in (state self.now) ≤ depth) (λ p. (depth < depth_in (state self.now)) × (p.letter ≡ slice_index (waiting_in (state self.now)) depth)) };

    // One instruction more. Payloads past the meaning's leaves are ignored.
    fn issue(&mut self, opcode: u32, first: u32, second: u32) -> Result<(), BoardFault>
        ensures fixed { machine self.new ≡ machine self.old }
        ensures outcome { MatchResult result (λ _. Issued (machine self.old) (state self.old) opcode first second (state self.new)) (λ e. (state self.new ≡ state self.old) × IssueDenied (machine self.old) (state self.old) opcode first second (board_number e) (board_place e)) };

    // Stores the last waiting operand in a variable.
    fn store(&mut self, variable: u32) -> Result<(), BoardFault>
        ensures fixed { machine self.new ≡ machine self.old }
        ensures outcome { MatchResult result (λ _. Stored (machine self.old) (state self.old) variable (state self.new)) (λ e. (state self.new ≡ state self.old) × StoreDenied (machine self.old) (state self.old) variable (board_number e) (board_place e)) };

    // The variables become the end setting; on a refusal none is changed.
    fn run(&self, variables: &mut [u32]) -> Result<(), RunFault>
        ensures { MatchResult result (λ _. Ran (state self.now) variables.old variables.new) (λ e. (variables.new ≡ variables.old) × RunFails variables.old (run_number e) (run_place e)) };

    // What each board must prove.
    ghost lawful: { (b : Self) → Lawful (machine b) (state b) };
}
