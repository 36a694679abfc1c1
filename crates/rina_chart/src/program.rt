//! The program: words, an input and an output.
ghost use Rattle.std.specs.Prelude.{◌≡◌, ◌≤◌, map, string_bytes, IfErr};
ghost use Rattle.rina_chart.specs.Asked.{asked_by, asked_of, behind_chart, behind_text, facility_of, first_of, place_by, second_of, third_of};
ghost use Rattle.rina_chart.specs.Outcome.{Looks};

use crate::chart::chart;
use crate::window::{Window, window_in};
use rina_io::{Sink, Source};
use rina_report::Fault;
use rina_view::{Status, refuse, view};
use std::alloc::Global;

/// In which form a chart is written.
#[derive(Clone, Copy, Debug, PartialEq, Eq)]
pub enum Format {
    /// A picture in SVG.
    Svg,
    /// A text in columns.
    Columns,
}

/// What the words of the command line ask for.
#[derive(Clone, Copy)]
pub(crate) enum Asked {
    /// What `view` writes for them.
    Table,
    /// A chart in a window, or of all ticks.
    Chart {
        format: Format,
        window: Option<Window>,
    },
    /// The word at a place cannot stand there, or is missing.
    Bad {
        word: u32,
    },
}

/// The place of a word that stands at this one where the chart is a picture.
fn place_by(format: Format, word: u32) -> u32
    requires { word ≤ 4 }
    ensures { result ≡ place_by format word }
{
    match format {
        Format::Svg => word,
        Format::Columns => word + 1,
    }
}

/// The chart in the window that the words ask for.
fn asked_by(format: Format, window: Result<Option<Window>, u32>) -> Asked
    requires { IfErr window (λ word. word ≤ 4) }
    ensures { result ≡ asked_by format window }
{
    match window {
        Ok(window) => Asked::Chart { format, window },
        Err(word) => Asked::Bad {
            word: place_by(format, word),
        },
    }
}

/// What the words behind `chart text` ask for. Where there are none, `text` is the facility of a picture.
fn behind_text(words: &[String]) -> Asked
    ensures { result ≡ behind_text (map (λ w. string_bytes w) words.now) }
{
    match words {
        [] => Asked::Chart {
            format: Format::Svg,
            window: None,
        },
        [_, others @ ..] => asked_by(Format::Columns, window_in(others)),
    }
}

/// What the words behind `chart` ask for.
fn behind_chart(words: &[String]) -> Asked
    ensures { result ≡ behind_chart (map (λ w. string_bytes w) words.now) }
{
    match words {
        [] => Asked::Bad { word: 1 },
        [first, others @ ..] => {
            if first.as_str() == "text" {
                behind_text(others)
            } else {
                asked_by(Format::Svg, window_in(others))
            }
        }
    }
}

fn asked_of(words: &[String]) -> Asked
    ensures { result ≡ asked_of (map (λ w. string_bytes w) words.now) }
{
    match words {
        [] => Asked::Table,
        [first, others @ ..] => {
            if first.as_str() == "chart" {
                behind_chart(others)
            } else {
                Asked::Table
            }
        }
    }
}

fn first_of(words: &[String]) -> &[u8]
    ensures { result.now ≡ first_of (map (λ w. string_bytes w) words.now) }
{
    match words {
        [] => &[],
        [first, ..] => first.as_bytes(),
    }
}

fn second_of(words: &[String]) -> &[u8]
    ensures { result.now ≡ second_of (map (λ w. string_bytes w) words.now) }
{
    match words {
        [] => &[],
        [_, others @ ..] => first_of(others),
    }
}

fn third_of(words: &[String]) -> &[u8]
    ensures { result.now ≡ third_of (map (λ w. string_bytes w) words.now) }
{
    match words {
        [] => &[],
        [_, others @ ..] => second_of(others),
    }
}

/// The facility that the words name.
fn facility_of(format: Format, words: &[String]) -> &[u8]
    ensures { result.now ≡ facility_of format (map (λ w. string_bytes w) words.now) }
{
    match format {
        Format::Svg => second_of(words),
        Format::Columns => third_of(words),
    }
}

/// The program, given the words of the command line without its name, the input and the output: behind `chart` a chart of the notes in the input
/// is written, behind `chart text` one in columns, for other words what `view` writes.
pub fn look<S: Source, K: Sink>(
    alloc: Global,
    words: &[String],
    input: &mut S,
    out: &mut K,
) -> Status
    ensures { Looks (map (λ w. string_bytes w) words.now) (S.left input.old) (S.left input.new) (K.took out.old) (K.took out.new) result }
{
    match asked_of(words) {
        Asked::Table => view(alloc, words, input, out),
        Asked::Chart { format, window } => {
            chart(
                alloc,
                format,
                facility_of(format, words),
                window,
                input,
                out,
            )
        }
        Asked::Bad { word } => refuse(alloc, out, Fault::Usage { word }),
    }
}
