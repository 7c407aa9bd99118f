// The commands of a paper.
ghost use Rattle.std.specs.Prelude.{◌≤◌, length};

use crate::desk::Handed;
use crate::stop::Stop;
use crate::text::{Lines, Words, split_once};
use operators::Operator;
use std::alloc::Global;
use std::fmt;
use std::str::from_utf8;
use tree::nodes::{Node, VARIABLES};

const MOST_VARIABLES: usize = 1024;

const COMMANDS: &str = "a command: statement, evaluate, description, cost, board or simulate";

const BOARDS: &str = "after the command the name of a board: reg or stk";

const SIZE: &str = "after the name of a board its count of words, and no more";

const ASSIGNMENT: &str = "V=W, where V is below the count of variables and W is a word";

const CODE: &str = "after the setting : and then words";

const KINDS: &str = "after cost one word: cycles, size or longest";

const NODES: &str =
    "a node: the name or number of an operator, then : and a word where it has a payload";

// The kind of what covers cost.
#[derive(Clone, Copy, Debug, PartialEq, Eq)]
pub enum CostKind {
    Cycles,
    Size,
    Longest,
}

impl fmt::Display for CostKind {
    fn fmt<W: fmt::Write>(&self, f: &mut fmt::Formatter<W>) -> fmt::Result {
        f.write_str(match self {
            CostKind::Cycles => "cycles",
            CostKind::Size => "size",
            CostKind::Longest => "longest",
        })
    }
}

// A board by its name. Where a command needs the board, each arm of a match names its type.
#[derive(Clone, Copy, Debug, PartialEq, Eq)]
pub enum BoardName {
    Reg,
    Stk,
}

// A simulator, the variables it starts from and the words it runs.
#[derive(Drop)]
pub struct Simulation {
    pub board: BoardName,
    pub variables: Vec<u32>,
    pub words: Vec<u32>,
}

#[derive(Drop)]
pub enum Command<'a> {
    Statement(Handed),
    Evaluate(Vec<u32>),
    // The text of a description.
    Description(&'a [u8]),
    Cost(CostKind),
    // A board over so many words.
    Board(BoardName, u32),
    Simulate(Simulation),
}

// The command of a line, with the lines after it that belong to it; none where the line is a comment or has no word.
pub(crate) fn parse<'a>(
    heap: Global,
    line: &'a [u8],
    lines: &mut Lines<'a>,
) -> Result<Option<Command<'a>>, Stop>
    ensures { length lines.new.rest.now ≤ length lines.old.rest.now }
{
    if let [b'#', ..] = line {
        return Ok(None);
    }
    let mut words = Words::new(line);
    Ok(Some(match words.next() {
        None => return Ok(None),
        Some(b"statement") => Command::Statement(statement(heap, words)?),
        Some(b"evaluate") => Command::Evaluate(whole_setting(heap, words)?),
        Some(b"description") => Command::Description(description(words, lines)?),
        Some(b"cost") => Command::Cost(cost_kind(words)?),
        Some(b"board") => board(words)?,
        Some(b"simulate") => Command::Simulate(simulated(heap, words)?),
        Some(_) => return Err(Stop::Expected(COMMANDS)),
    }))
}

// Nothing more stands on the line.
fn no_more(mut words: Words, expected: &'static str) -> Result<(), Stop> {
    match words.next() {
        None => Ok(()),
        Some(_) => Err(Stop::Expected(expected)),
    }
}

// The text of a description, up to the line `end`.
fn description<'a>(words: Words, lines: &mut Lines<'a>) -> Result<&'a [u8], Stop>
    ensures { length lines.new.rest.now ≤ length lines.old.rest.now }
{
    no_more(words, "the word description alone")?;
    let text = lines.until_end();
    text.ok_or(Stop::Expected("after the text of a description the line end"))
}

// The next word, and no more; no `TryFrom`, since it says what was expected of the line.
fn cost_kind(mut words: Words) -> Result<CostKind, Stop> {
    let kind = match words.next() {
        Some(b"cycles") => CostKind::Cycles,
        Some(b"size") => CostKind::Size,
        Some(b"longest") => CostKind::Longest,
        _ => return Err(Stop::Expected(KINDS)),
    };
    no_more(words, KINDS)?;
    Ok(kind)
}

// A word in base ten: digits alone, where the library's parse would take a sign too.
fn number(text: &[u8]) -> Option<u32> {
    if text.is_empty() {
        return None;
    }
    text.iter().try_fold(0u32, |value, &byte| {
        let digit = char::from(byte).to_digit(10)?;
        value.checked_mul(10)?.checked_add(digit)
    })
}

// An operator's number, given as such or by its name.
fn operator(text: &[u8]) -> Option<u32> {
    if let Some(number) = number(text) {
        return Some(number);
    }
    let operator: Operator = from_utf8(text).ok()?.parse().ok()?;
    Some(u32::from(operator))
}

// An operator, and after a colon a payload, which else is 0.
fn node(text: &[u8]) -> Option<Node> {
    let (name, payload) = match split_once(text, b':') {
        Some((name, payload)) => (name, number(payload)?),
        None => (text, 0),
    };
    let operator = operator(name)?;
    Some(Node { operator, payload })
}

// TARGET = NODE ...
fn statement(heap: Global, mut words: Words) -> Result<Handed, Stop> {
    let target = words
        .next()
        .ok_or(Stop::Expected("TARGET = NODE ... after the command"))?;
    let target = number(target).ok_or(Stop::Expected("the number of a variable before ="))?;
    let Some(b"=") = words.next() else {
        return Err(Stop::Expected("= after the number of a variable"));
    };
    let mut nodes = Vec::new(heap);
    // A `Stop` made and moved for each word, as by `ok_or`, would cost a tenth of a run.
    for word in words {
        let Some(node) = node(word) else {
            return Err(Stop::Expected(NODES));
        };
        nodes.push(node)?;
    }
    Ok(Handed { target, nodes })
}

// [count N] [V=W ...], up to a word `:` or the line's end: N variables, all 0 but those given.
fn setting(heap: Global, words: &mut Words) -> Result<Vec<u32>, Stop> {
    let count = match words.next_if(|word| word == b"count".as_slice()) {
        Some(_) => counted(words.next())?,
        None => VARIABLES,
    };
    let mut variables = vec![in heap; 0; count]?;
    while let Some(text) = words.next_if(|word| word != b":".as_slice()) {
        assign(text, &mut variables)?;
    }
    Ok(variables)
}

// A setting and nothing else.
fn whole_setting(heap: Global, mut words: Words) -> Result<Vec<u32>, Stop> {
    let variables = setting(heap, &mut words)?;
    no_more(words, ASSIGNMENT)?;
    Ok(variables)
}

// The word, if there is one; no `TryFrom`, since it says what was expected of the line.
fn board_name(word: Option<&[u8]>) -> Result<BoardName, Stop> {
    match word {
        Some(b"reg") => Ok(BoardName::Reg),
        Some(b"stk") => Ok(BoardName::Stk),
        _ => Err(Stop::Expected(BOARDS)),
    }
}

// NAME WORDS
fn board<'a>(mut words: Words) -> Result<Command<'a>, Stop> {
    let name = board_name(words.next())?;
    let count = words.next().and_then(number).ok_or(Stop::Expected(SIZE))?;
    no_more(words, SIZE)?;
    Ok(Command::Board(name, count))
}

// NAME [count N] [V=W ...] : WORD ...
fn simulated(heap: Global, mut words: Words) -> Result<Simulation, Stop> {
    let board = board_name(words.next())?;
    let variables = setting(heap, &mut words)?;
    let Some(b":") = words.next() else {
        return Err(Stop::Expected(CODE));
    };
    let mut code = Vec::new(heap);
    for word in words {
        let Some(number) = number(word) else {
            return Err(Stop::Expected(CODE));
        };
        code.push(number)?;
    }
    Ok(Simulation {
        board,
        variables,
        words: code,
    })
}

fn counted(word: Option<&[u8]>) -> Result<usize, Stop> {
    word.and_then(number)
        .map(|count| count as usize)
        .filter(|count| *count <= MOST_VARIABLES)
        .ok_or(Stop::Expected("after count a number up to 1024"))
}

// V=W
fn assign(text: &[u8], variables: &mut Vec<u32>) -> Result<(), Stop> {
    let expected = Stop::Expected(ASSIGNMENT);
    let Some((variable, word)) = split_once(text, b'=') else {
        return Err(expected);
    };
    let (Some(variable), Some(word)) = (number(variable), number(word)) else {
        return Err(expected);
    };
    *variables.get_mut(variable as usize).ok_or(expected)? = word;
    Ok(())
}
