//! Reading an input line by line: the text of the stack, and the lines of the schedule behind the mark.
ghost use Rattle.std.specs.Prelude.{ℕ, List, [], Option, IfOk};
ghost use Rattle.rina_io.specs.NextLine.{IsSound};
ghost use Rattle.rina_stack.specs.Plan.{IsPlan};
ghost use Rattle.rina_stack.specs.Stack.{Reads};
ghost use Rattle.rina_run.specs.Reading.{HasRead, HeadRead, NextGoesOn, NextRead};
ghost use Rattle.rina_run.specs.Faults.{HeadFaults, NextFaults};

use crate::input::is_mark_line;
use rina_base::Memory;
use rina_io::{LineReader, ReadError, Source};
use rina_report::Fault;
use rina_stack::{Plan, Policies, StackError};
use std::alloc::Global;

/// What stands next in an input.
#[derive(Drop)]
pub enum Next {
    /// A line, with its end if it has one.
    Line(Vec<u8>),
    /// The end of the input.
    End,
    /// Reading broke off with this fault.
    Broken(Fault),
}

/// What stands before the schedule of an input.
#[derive(Drop)]
pub enum Head {
    /// The text of the stack.
    Stack(Vec<u8>),
    /// Reading broke off with this fault.
    Broken(Fault),
}

/// Reads one line more.
pub fn next_line<S: Source>(
    alloc: Global,
    reader: &mut LineReader,
    source: &mut S,
) -> Result<Next, Memory>
    requires { IsSound (S.left source.old) reader.old }
    ensures reads { (left : Option (List ℕ)) (lines : List (List ℕ)) → HasRead left (S.left source.old) reader.old lines → NextRead left (S.left source.new) reader.new lines result }
    ensures goes_on { NextGoesOn (S.left source.new) reader.old reader.new result }
    ensures faults { NextFaults result (S.faults source.old) (S.faults source.new) (S.odd source.old) (S.odd source.new) }
{
    match reader.next_line(alloc, source) {
        Ok(Some(line)) => Ok(Next::Line(line)),
        Ok(None) => Ok(Next::End),
        Err(ReadError::TooLarge) => Ok(Next::Broken(Fault::TooLarge)),
        Err(ReadError::Fault) => Ok(Next::Broken(Fault::ReadFault)),
        Err(ReadError::Memory) => Err(Memory),
    }
}

/// Reads the text of the stack: the lines before the mark, or all lines where none is the mark.
pub fn read_stack<S: Source>(
    alloc: Global,
    reader: &mut LineReader,
    source: &mut S,
) -> Result<Head, Memory>
    requires { HasRead (S.left source.old) (S.left source.old) reader.old [] }
    ensures reads { HeadRead (S.left source.old) (S.left source.new) reader.new result }
    ensures faults { HeadFaults result (S.faults source.old) (S.faults source.new) (S.odd source.old) (S.odd source.new) }
{
    let mut text = Vec::new(alloc);
    'lines: loop {
        let line = match next_line(alloc, reader, source) {
            Ok(Next::Line(line)) => line,
            Ok(Next::End) => return Ok(Head::Stack(text)),
            Ok(Next::Broken(fault)) => return Ok(Head::Broken(fault)),
            Err(Memory) => return Err(Memory),
        };
        if is_mark_line(line.as_slice()) {
            return Ok(Head::Stack(text));
        }
        let Ok(()) = text.extend_from_slice(line.as_slice()) else {
            return Err(Memory);
        };
    }
}

/// The plan of a stack, whose text is let go.
pub fn plan_of<P: Policies>(alloc: Global, text: Vec<u8>, shelf: &P) -> Result<Plan, StackError>
    ensures reads { Reads (P.knows shelf.now) result text.items }
    ensures plan { IfOk result IsPlan }
{
    rina_stack::read_stack(alloc, text.as_slice(), shelf)
}
