// Boards that keep their code as words, for every processor.
ghost use Rattle.std.specs.Prelude.{reverse};
ghost use Rattle.tree.specs.Stacks.{held};
ghost use Rattle.processor.specs.Boards.{Belongs};

use crate::{Processor, WAITING_LIMIT};
use rows::Row;
use std::marker::PhantomData;
use tree::stack::Stack;

mod calls;

// The words of its code, over the lent memory, and the letters of the PLACES that wait, the deepest first.
#[derive(Drop)]
pub struct CodedBoard<'a, P: Processor> {
    code: Stack<'a, u32>,
    waiting: Row<u8, WAITING_LIMIT>,
    processor: PhantomData<P>,
    ghost belongs: { Belongs P.Processor.design (reverse (held code)) waiting },
}
