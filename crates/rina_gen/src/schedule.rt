//! Printing a schedule, and a stack with its schedule.
ghost use Rattle.std.specs.Prelude.{◌≡◌, IfOk};
ghost use Rattle.std.specs.List.{flat_map};
ghost use Rattle.rina_schedule.specs.Spelling.{Adds};
ghost use Rattle.rina_gen.specs.Input.{input};
ghost use Rattle.rina_gen.specs.Text.{line_text, last_lines, input_text};

use crate::input::{Input, Line, draw_input};
use crate::stack::{add_led, add_stack};
use rina_base::Memory;
use rina_schedule::Text;
use std::alloc::Global;

#[tactic(auto, unfolding(crate::specs::Text::line_text))]
fn add_line(text: &mut Text, line: Line) -> Result<(), Memory>
    ensures { Adds result text.old text.new (line_text line) }
{
    match line {
        Line::Send { flow, zeros } => {
            add_led(text, b"send p", u64::from(flow))?;
            add_led(text, b" z", u64::from(zeros))?;
            text.push(b'\n')
        }
        Line::Read { flow } => {
            add_led(text, b"read q", u64::from(flow))?;
            text.push(b'\n')
        }
        Line::Tick { ticks } => {
            add_led(text, b"tick ", u64::from(ticks))?;
            text.push(b'\n')
        }
    }
}

fn add_lines(text: &mut Text, lines: &[Line]) -> Result<(), Memory>
    ensures { Adds result text.old text.new (flat_map line_text lines.now) }
{
    match lines {
        [] => Ok(()),
        [first, others @ ..] => {
            add_line(text, *first)?;
            add_lines(text, others)
        }
    }
}

#[tactic(auto, unfolding(crate::specs::Text::last_lines))]
fn add_last_lines(text: &mut Text) -> Result<(), Memory>
    ensures { Adds result text.old text.new last_lines }
{
    text.add(b"tick 2000\nread q0\nread q1\nread q2\nread q3\nread q4\nread q5\n")
}

#[tactic(auto, unfolding(crate::specs::Text::input_text))]
fn add_input(text: &mut Text, input: &Input) -> Result<(), Memory>
    ensures { Adds result text.old text.new (input_text input.now) }
{
    add_stack(text, input)?;
    text.add(b"%%\n")?;
    add_lines(text, input.lines.as_slice())?;
    add_last_lines(text)
}

/// Draws a stack and its schedule with a generator of this seed, and prints both, as `show N` does. Fails once
/// an allocation fails.
pub fn make(alloc: Global, n: u32) -> Result<Vec<u8>, Memory>
    ensures { IfOk result (λ text. text.items ≡ input_text (input n)) }
{
    let drawn = draw_input(alloc, n)?;
    let mut text = Text::new(alloc);
    add_input(&mut text, &drawn)?;
    Ok(text.into_vec())
}
