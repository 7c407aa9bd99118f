// Reads a paper, carries out its commands in order and prints the key.
#![tactic(auto)]

ghost use Rattle.std.specs.Prelude.{◌≤◌, length};

mod answers;
mod commands;
mod desk;
mod stop;
mod text;

use anyhow::anyhow;
use desk::Desk;
use std::alloc::Global;
use std::io::{BufWriter, Read, Write};
use std::process::ExitCode;
use std::{env, fs, io};
use stop::Stop;
use text::Lines;

// The paper named by the first argument, or else standard input.
fn paper(rt: &HostRuntime) -> io::Result<Vec<u8>> {
    let mut arguments = env::args(rt)?;
    let _program = arguments.next();
    if let Some(path) = arguments.next() {
        return fs::read(rt, path.as_str());
    }
    let mut bytes = Vec::new(rt.alloc());
    let mut input = rt.stdin();
    input.read_to_end(&mut bytes)?;
    Ok(bytes)
}

// Carries out the command of a line, if it has one, and prints the line and the answer.
fn carry_out_line<'a, W: Write>(
    heap: Global,
    line: &'a [u8],
    lines: &mut Lines<'a>,
    desk: &mut Desk,
    out: &mut W,
) -> Result<(), Stop>
    ensures { length lines.new.rest.now ≤ length lines.old.rest.now }
{
    if let Some(command) = commands::parse(heap, line, lines)? {
        let mut echo = text::single_spaced(heap, line)?;
        echo.push(b'\n')?;
        let answer = desk.answer(heap, command)?;
        out.write_all(echo.as_slice())?;
        writeln!(out, "{answer}")?;
    }
    Ok(())
}

// Carries out the lines up to the first that is no command; the number of that line, and why it stopped there.
fn carry_out<W: Write>(heap: Global, bytes: &[u8], out: &mut W) -> Result<(), (usize, Stop)> {
    let mut lines = Lines::new(bytes);
    let mut desk = Desk::new(heap);
    while let Some(line) = lines.next() {
        let done = carry_out_line(heap, line, &mut lines, &mut desk, out);
        done.map_err(|stop| (lines.read, stop))?;
    }
    Ok(())
}

fn main(rt: HostRuntime) -> anyhow::Result<ExitCode> {
    let bytes = paper(&rt)?;
    let mut out = BufWriter::new(rt.alloc(), rt.stdout())?;
    let end = carry_out(rt.alloc(), bytes.as_slice(), &mut out);
    out.flush()?;
    match end {
        Ok(()) => Ok(ExitCode::SUCCESS),
        Err((line, Stop::Expected(what))) => {
            eprintln!(rt; "paper: line {line}: expected {what}")?;
            Ok(ExitCode::FAILURE)
        }
        Err((_, Stop::Memory)) => Err(anyhow!("out of memory")),
        Err((_, Stop::Output(error))) => Err(error.into()),
    }
}
