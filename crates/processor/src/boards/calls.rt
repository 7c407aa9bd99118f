// The calls of a board.
ghost use Rattle.std.specs.Prelude.{◌≡◌, ◌+◌, ◌<◌, ◌≤◌, [], ◌∷◌, ◌++◌, length, MatchResult};
ghost use Rattle.board.specs.Acts.{IssueDenied, Issued, StoreDenied, Stored};
ghost use Rattle.board.specs.Faults.{board_number, board_place};
ghost use Rattle.board.specs.States.{code_in};
ghost use Rattle.processor.specs.Boards.{Belongs, state_of};
ghost use Rattle.processor.specs.Codes.{encoded};

use super::CodedBoard;
use crate::naming::named;
use crate::requests::{Request, Room};
use crate::simulation::simulate;
use crate::{Processor, WAITING_LIMIT};
use board::Board;
use board::faults::{BoardFault, RunFault};
use board::instructions::Instruction;
use fault::Fault;
use pattern::names::ShortName;
use pattern::places::Place;
use rows::Row;
use std::marker::PhantomData;
use tree::stack::Stack;

impl<'a, P: Processor> CodedBoard<'a, P> {
    ghost use Rattle.processor.specs.CodedBoards.{beyond_code, code_words, board_state};

    // A board with no code over all of the memory.
    pub fn new(memory: &'a mut [u32]) -> CodedBoard<'a, P>
        ensures words { code_words result ≡ [] }
        ensures state { board_state result ≡ state_of P.Processor.design [] (length memory.old) [] }
        ensures untouched { beyond_code result ≡ memory.old }
    {
        CodedBoard {
            code: Stack::new(memory),
            waiting: Row::new(),
            processor: PhantomData,
        }
    }

    // The words of the code: the encoding of what was issued and stored.
    pub fn words(&self) -> &[u32]
        ensures value { result.now ≡ code_words self.now }
        ensures encoding { result.now ≡ encoded P.Processor.design [] (code_in (board_state self.now)) }
    {
        self.code.as_slice()
    }
}

impl<P: Processor> CodedBoard<'_, P> {
    ghost use Rattle.processor.specs.CodedBoards.{beyond_code, code_words, waiting_places, Grew};

    // What a call finds.
    fn room(&self) -> Room<'_>
        ensures waiting { result.waiting.now ≡ waiting_places self.now }
        ensures free { result.free ≡ length (beyond_code self.now) }
    {
        Room {
            waiting: self.waiting.as_slice(),
            free: self.code.room(),
        }
    }

    // Writes the words after the code; operands then wait in these PLACES.
    fn append(&mut self, words: &[u32], waiting: Row<u8, WAITING_LIMIT>)
        requires room { length words.now ≤ length (beyond_code self.old) }
        requires belongs { Belongs P.Processor.design (code_words self.old ++ words.now) waiting }
        ensures { Grew self.old words.now waiting self.new }
    {
        let Ok(()) = self.code.push_all(words) else {
            unreachable()
        };
        self.waiting = waiting;
    }
}

// What is taken is written after the code.
impl<P: Processor> Board for CodedBoard<'_, P> {
    ghost use Rattle.processor.specs.CodedBoards.{board_state, WroteIssue, WroteStore};
    ghost use Rattle.processor.specs.Lawful.{board_lawful};

    ghost machine = { λ b. P.Processor.design.fixed_part };

    ghost state = { board_state };

    ghost lawful = { board_lawful P.Processor.sound };

    fn depth_limit(&self) -> usize {
        P::depth_limit()
    }

    fn store_place(&self) -> Place {
        P::store_place()
    }

    fn instruction(&self, mnemonic: &ShortName) -> Option<Instruction> {
        named::<P>(mnemonic)
    }

    fn free_words(&self) -> usize {
        self.code.room()
    }

    fn waiting_count(&self) -> usize {
        self.waiting.len()
    }

    fn waiting_place(&self, depth: usize) -> Option<Place> {
        let letter = self.waiting.as_slice().get(depth)?;
        Place::try_from(*letter).ok()
    }

    fn issue(&mut self, opcode: u32, first: u32, second: u32) -> Result<(), BoardFault>
        ensures outcome { MatchResult result (λ _. Issued P.Processor.design.fixed_part (board_state self.old) opcode first second (board_state self.new)) (λ e. (board_state self.new ≡ board_state self.old) × IssueDenied P.Processor.design.fixed_part (board_state self.old) opcode first second (board_number e) (board_place e)) }
        ensures memory { MatchResult result (λ _. WroteIssue self.old opcode first second self.new) (λ _. self.new ≡ self.old) }
    {
        let request = Request {
            opcode,
            first,
            second,
        };
        let emission = self.room().judge_issue::<P>(request)?;
        let mut waiting = self.waiting;
        waiting.truncate(emission.below);
        let Ok(()) = waiting.push(emission.result) else {
            unreachable()
        };
        self.append(emission.words.as_slice(), waiting);
        Ok(())
    }

    fn store(&mut self, variable: u32) -> Result<(), BoardFault>
        ensures outcome { MatchResult result (λ _. Stored P.Processor.design.fixed_part (board_state self.old) variable (board_state self.new)) (λ e. (board_state self.new ≡ board_state self.old) × StoreDenied P.Processor.design.fixed_part (board_state self.old) variable (board_number e) (board_place e)) }
        ensures memory { MatchResult result (λ _. WroteStore self.old variable self.new) (λ _. self.new ≡ self.old) }
    {
        let words = self.room().judge_store::<P>(variable)?;
        let mut waiting = self.waiting;
        let _ = waiting.pop();
        self.append(&words, waiting);
        Ok(())
    }

    fn run(&self, variables: &mut [u32]) -> Result<(), RunFault> {
        // As a `map_err` the proof of what is promised of the answer does not close.
        match simulate::<P>(self.words(), variables) {
            Ok(()) => Ok(()),
            Err(fault) => Err(RunFault::WrongCount(fault.place())),
        }
    }
}
