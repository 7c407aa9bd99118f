// Whether an issue or a store is allowed, and what it appends.
ghost use Rattle.std.specs.Prelude.{◌≡◌, ◌+◌, ◌<◌, ◌≤◌, MatchResult, nat_lt};
ghost use Rattle.board.specs.Faults.{board_number, board_place};
ghost use Rattle.processor.specs.Designs.{first_word};
ghost use Rattle.processor.specs.Requests.{AllowedBy, Emits, EmitsStore, IssueRefused, StoreRefused};

use super::{Emission, Request, Room, WORD_LIMIT};
use crate::{Processor, STORE};
use board::faults::BoardFault;
use board::instructions::Instruction;
use rows::Row;
use tree::nodes::LAST_VARIABLE;

// Whether a result above so many operands would lie beyond the depth limit.
fn beyond_limit<P: Processor>(below: usize) -> bool
    ensures { result ≡ nat_lt P.Processor.design.fixed_part.deepest (below + 1) }
{
    below >= P::depth_limit()
}

// Whether there are too few free words for a first word and so many payloads.
fn lacks_room(free: usize, payloads: usize) -> bool
    requires { payloads ≤ 2 }
    ensures { result ≡ nat_lt free (1 + payloads) }
{
    free < 1 + payloads
}

// The first word of an instruction whose result lies at that depth.
fn first_word<P: Processor>(opcode: u32, depth: usize, operands: usize) -> u32
    requires { opcode < 256 }
    ensures { result ≡ first_word P.Processor.design opcode depth operands }
{
    opcode * 256 + u32::from(P::low_byte(depth, operands))
}

impl Room<'_> {
    // The instruction of an issue, or the first condition that refuses it.
    fn allowed<P: Processor>(&self, request: Request) -> Result<Instruction, BoardFault>
        ensures { MatchResult result (λ i. AllowedBy P.Processor.design self.now.waiting.now self.now.free request.opcode request.first request.second i) (λ f. IssueRefused P.Processor.design self.now.waiting.now self.now.free request.opcode request.first request.second (board_number f) (board_place f)) }
    {
        let waiting = self.waiting;
        let depth = waiting.len();
        let Some(instruction) = P::operation(request.opcode) else {
            return Err(BoardFault::UnknownOpcode(depth));
        };
        if !instruction.operands_wait(waiting) {
            return Err(BoardFault::OperandLacking(depth));
        }
        if !instruction.admits(&[request.first, request.second]) {
            return Err(BoardFault::PayloadBarred(depth));
        }
        if beyond_limit::<P>(depth - instruction.meaning.operands) {
            return Err(BoardFault::TooDeep(depth));
        }
        if lacks_room(self.free, instruction.meaning.leaves) {
            return Err(BoardFault::NoRoom(depth));
        }
        Ok(instruction)
    }

    // The words of an issue and where its result is to wait, or the first condition that refuses it.
    pub fn judge_issue<P: Processor>(&self, request: Request) -> Result<Emission, BoardFault>
        ensures { MatchResult result (λ e. Emits P.Processor.design self.now.waiting.now self.now.free request.opcode request.first request.second e) (λ f. IssueRefused P.Processor.design self.now.waiting.now self.now.free request.opcode request.first request.second (board_number f) (board_place f)) }
    {
        let instruction = self.allowed::<P>(request)?;
        let meaning = &instruction.meaning;
        let below = self.waiting.len() - meaning.operands;
        let first = first_word::<P>(request.opcode, below, meaning.operands);
        let all = [first, request.first];
        let Ok(words) = Row::try_from(&all[..1 + meaning.leaves]) else {
            unreachable()
        };
        Ok(Emission {
            words,
            below,
            result: instruction.result.letter,
        })
    }

    // The words of a store, or the first condition that refuses it.
    pub fn judge_store<P: Processor>(&self, variable: u32) -> Result<[u32; WORD_LIMIT], BoardFault>
        ensures { MatchResult result (λ ws. EmitsStore P.Processor.design self.now.waiting.now self.now.free variable ws) (λ f. StoreRefused P.Processor.design self.now.waiting.now self.now.free variable (board_number f) (board_place f)) }
    {
        let [below @ .., last] = self.waiting else {
            return Err(BoardFault::OperandLacking(0));
        };
        let depth = self.waiting.len();
        if *last != P::store_place().letter {
            return Err(BoardFault::OperandLacking(depth));
        }
        if variable > LAST_VARIABLE {
            return Err(BoardFault::PayloadBarred(depth));
        }
        if self.free < 2 {
            return Err(BoardFault::NoRoom(depth));
        }
        Ok([first_word::<P>(STORE, below.len(), 1), variable])
    }
}
