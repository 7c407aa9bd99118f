// What has been handed in, and the answers to commands.
use crate::answers;
use crate::commands::{BoardName, Command, CostKind, Simulation};
use board::Board;
use description::descriptions::Description;
use processor::simulation::simulate as simulate_on;
use reg::boards::Reg;
use reg::register_files::RegisterProcessor;
use std::alloc::{AllocError, Global};
use stk::boards::Stk;
use stk::stacks::ValueStack;
use tree::evaluation;
use tree::nodes::{Node, Statement};

// A statement as the paper has it.
#[derive(Drop)]
pub struct Handed {
    pub target: u32,
    pub nodes: Vec<Node>,
}

impl Handed {
    fn statement(&self) -> Statement<'_> {
        Statement {
            target: self.target,
            nodes: self.nodes.as_slice(),
        }
    }
}

#[derive(Drop)]
pub struct Desk {
    // The statements taken, in order.
    taken: Vec<Handed>,
    description: Description,
    kind: CostKind,
}

impl Desk {
    pub(crate) fn new(heap: Global) -> Desk {
        Desk {
            taken: Vec::new(heap),
            description: Description::empty(),
            kind: CostKind::Cycles,
        }
    }

    // Carries out a command; the lines of its answer.
    pub(crate) fn answer(
        &mut self,
        heap: Global,
        command: Command<'_>,
    ) -> Result<String, AllocError> {
        match command {
            Command::Statement(handed) => self.take(heap, handed),
            Command::Evaluate(variables) => self.evaluate(heap, variables),
            Command::Description(text) => self.describe(heap, text),
            Command::Cost(kind) => {
                self.kind = kind;
                answers::cost_kind(heap, kind)
            }
            Command::Board(name, words) => self.set_up(heap, name, words),
            Command::Simulate(simulation) => simulate(heap, simulation),
        }
    }

    // A new board; the statements taken are forgotten.
    fn set_up(&mut self, heap: Global, name: BoardName, words: u32) -> Result<String, AllocError> {
        let mut memory = vec![in heap; 0u32; words as usize]?;
        self.taken = Vec::new(heap);
        let free = match name {
            BoardName::Reg => Reg::new(memory.as_mut_slice()).free_words(),
            BoardName::Stk => Stk::new(memory.as_mut_slice()).free_words(),
        };
        format!(in heap; "  {free} words free")
    }

    fn describe(&mut self, heap: Global, text: &[u8]) -> Result<String, AllocError> {
        match reader::read::read(text, &mut self.description) {
            Ok(()) => answers::description(heap, &self.description),
            Err(fault) => answers::refused(heap, fault),
        }
    }

    fn take(&mut self, heap: Global, handed: Handed) -> Result<String, AllocError> {
        match handed.statement().check() {
            Ok(_) => {
                self.taken.push(handed)?;
                String::from_str(heap, "  taken")
            }
            Err(fault) => answers::refused(heap, fault),
        }
    }

    fn evaluate(&self, heap: Global, mut variables: Vec<u32>) -> Result<String, AllocError> {
        let statements: Vec<Statement> = self
            .taken
            .iter()
            .map(|handed| handed.statement())
            .collect(heap)?;
        match evaluation::evaluate(statements.as_slice(), variables.as_mut_slice()) {
            Ok(()) => answers::variables(heap, variables.as_slice()),
            Err(fault) => answers::refused(heap, fault),
        }
    }
}

fn simulate(heap: Global, simulation: Simulation) -> Result<String, AllocError> {
    let Simulation {
        board,
        mut variables,
        words,
    } = simulation;
    let end = match board {
        BoardName::Reg => {
            simulate_on::<RegisterProcessor>(words.as_slice(), variables.as_mut_slice())
        }
        BoardName::Stk => simulate_on::<ValueStack>(words.as_slice(), variables.as_mut_slice()),
    };
    match end {
        Ok(()) => answers::variables(heap, variables.as_slice()),
        Err(fault) => answers::refused(heap, fault),
    }
}
