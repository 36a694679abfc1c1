//! The program: words, an input and an output.
ghost use Rattle.std.specs.Prelude.{◌≡◌, ◌<◌, length, map, position, string_bytes, IfSome};
ghost use Rattle.rina_stack.specs.Plan.{IsPlan};
ghost use Rattle.rina_view.specs.Outcome.{TellsInput};
ghost use Rattle.rina_promises.specs.Looking.{Looks, TellsPairs, TellsStack, TellsTable, TellsText, behind, command_of, dif_named, first_of, name_in};
ghost use Rattle.rina_promises.specs.Pairs.{ShowsPairs};
ghost use Rattle.rina_promises.specs.Promises.{ShowsPromises};

use crate::pairs::pairs_table;
use crate::table::promises_table;
use rina_base::Memory;
use rina_io::{Ending, Sink, Source, take_all};
use rina_plan::DifPlan;
use rina_report::Fault;
use rina_stack::{BuiltIn, Plan, StackError, read_stack};
use rina_view::{Status, refuse, view, write};
use std::alloc::Global;

/// What of a stack is shown.
#[derive(Clone, Copy, Debug, PartialEq, Eq)]
pub enum Table {
    /// The flows of all DIFs.
    Flows,
    /// The pairs of members of one DIF.
    Pairs,
}

/// What the words of the command line ask for.
#[derive(Clone, Copy, Debug, PartialEq, Eq)]
pub enum Command {
    /// A table of a stack.
    Shown { table: Table },
    /// The same, with a word behind it that cannot stand there.
    More,
    /// Something else.
    Other,
}

/// Writes the table of the flows of a stack.
#[tactic(auto, using(crate::proofs::Told::text_shown, crate::proofs::Told::text_unfound))]
fn flows_of_plan<K: Sink>(alloc: Global, plan: &Plan, out: &mut K) -> Status
    requires { IsPlan plan.now }
    ensures { TellsText (ShowsPromises plan.now) (K.took out.old) (K.took out.new) result }
{
    match promises_table(alloc, plan) {
        Ok(text) => write(out, text.as_slice(), Status::Done),
        Err(Memory) => Status::Memory,
    }
}

/// Writes the table of the pairs of members of the DIF at a place of a stack.
#[tactic(auto, using(crate::proofs::Told::text_shown, crate::proofs::Told::text_unfound))]
fn pairs_at<K: Sink>(alloc: Global, plan: &Plan, at: usize, out: &mut K) -> Status
    requires plan { IsPlan plan.now }
    requires at { at < length plan.now.difs }
    ensures { TellsText (ShowsPairs plan.now at) (K.took out.old) (K.took out.new) result }
{
    match pairs_table(alloc, plan, at) {
        Ok(text) => write(out, text.as_slice(), Status::Done),
        Err(Memory) => Status::Memory,
    }
}

/// The place of the DIF of a name.
fn dif_named(difs: &[DifPlan], name: &[u8]) -> Option<usize>
    ensures place { result ≡ dif_named name.now difs.now }
    ensures within { IfSome result (λ at. at < length difs.now) }
{
    difs.iter().position(|dif| dif.name.as_bytes() == name)
}

/// Writes the table of the pairs of members of the DIF of a name, or that there is none.
#[tactic(auto, using(crate::proofs::Told::pairs_there, crate::proofs::Told::pairs_none))]
fn pairs_of_plan<K: Sink>(alloc: Global, name: &[u8], plan: &Plan, out: &mut K) -> Status
    requires { IsPlan plan.now }
    ensures { TellsPairs (dif_named name.now plan.now.difs) plan.now (K.took out.old) (K.took out.new) result }
{
    match dif_named(plan.difs.as_slice(), name) {
        Some(at) => pairs_at(alloc, plan, at, out),
        None => refuse(alloc, out, Fault::Usage { word: 1 }),
    }
}

/// Writes a table of a stack that was read.
fn table_of_plan<K: Sink>(
    alloc: Global,
    table: Table,
    name: &[u8],
    plan: &Plan,
    out: &mut K,
) -> Status
    requires { IsPlan plan.now }
    ensures { TellsTable table name.now plan.now (K.took out.old) (K.took out.new) result }
{
    match table {
        Table::Flows => flows_of_plan(alloc, plan, out),
        Table::Pairs => pairs_of_plan(alloc, name, plan, out),
    }
}

/// Writes a table of an input that was taken whole, or the fault of the stack in it.
#[tactic(auto, using(crate::proofs::Told::told_plan, crate::proofs::Told::told_nothing, crate::proofs::Told::told_no_toml, crate::proofs::Told::told_rule))]
fn promises_of<K: Sink>(
    alloc: Global,
    table: Table,
    name: &[u8],
    bytes: &[u8],
    out: &mut K,
) -> Status
    ensures { TellsStack table name.now bytes.now (K.took out.old) (K.took out.new) result }
{
    match read_stack(alloc, bytes, &BuiltIn) {
        Ok(plan) => table_of_plan(alloc, table, name, &plan, out),
        Err(StackError::Memory) => Status::Memory,
        Err(StackError::NotToml) => refuse(alloc, out, Fault::NotToml),
        Err(StackError::StackRule { n, item }) => refuse(alloc, out, Fault::StackRule { n, item }),
    }
}

/// Writes a table of the stack in an input.
fn promises<S: Source, K: Sink>(
    alloc: Global,
    table: Table,
    name: &[u8],
    input: &mut S,
    out: &mut K,
) -> Status
    ensures { TellsInput (TellsStack table name.now) (S.left input.old) (S.left input.new) (K.took out.old) (K.took out.new) result }
{
    let taken = take_all(alloc, input);
    match taken.ending {
        Ending::Whole => promises_of(alloc, table, name, taken.bytes.as_slice(), out),
        Ending::TooLarge => refuse(alloc, out, Fault::TooLarge),
        Ending::Fault => refuse(alloc, out, Fault::ReadFault),
        Ending::Memory => Status::Memory,
    }
}

/// What `promises` asks for with these words behind it: of all flows, or of the pairs of members of the DIF that the word names.
fn behind(others: &[String]) -> Command
    ensures { result ≡ behind (map (λ w. string_bytes w) others.now) }
{
    match others {
        [] => Command::Shown {
            table: Table::Flows,
        },
        [_] => Command::Shown {
            table: Table::Pairs,
        },
        [_, _, ..] => Command::More,
    }
}

/// What the words ask for.
fn command_in(words: &[String]) -> Command
    ensures { result ≡ command_of (map (λ w. string_bytes w) words.now) }
{
    match words {
        [] => Command::Other,
        [first, others @ ..] => {
            if first.as_str() == "promises" {
                behind(others)
            } else {
                Command::Other
            }
        }
    }
}

/// The first of these words, empty where there is none.
fn first_of(words: &[String]) -> &[u8]
    ensures { result.now ≡ first_of (map (λ w. string_bytes w) words.now) }
{
    match words {
        [] => &[],
        [first, ..] => first.as_bytes(),
    }
}

/// The name behind the first word, empty where there is none.
fn name_in(words: &[String]) -> &[u8]
    ensures { result.now ≡ name_in (map (λ w. string_bytes w) words.now) }
{
    match words {
        [] => &[],
        [_, others @ ..] => first_of(others),
    }
}

/// The program, given the words of the command line without its name, the input and the output: where the words are `promises` alone the table of
/// the promises of the stack in the input is written, where a name stands behind it that of the pairs of members of the DIF of that name, or the
/// fault of the input; what other words ask for is done by `rina_view::view`.
#[tactic(auto, using(crate::proofs::Told::looked_shown, crate::proofs::Told::looked_more, crate::proofs::Told::looked_other))]
pub fn look<S: Source, K: Sink>(
    alloc: Global,
    words: &[String],
    input: &mut S,
    out: &mut K,
) -> Status
    ensures { Looks (map (λ w. string_bytes w) words.now) (S.left input.old) (S.left input.new) (K.took out.old) (K.took out.new) result }
{
    match command_in(words) {
        Command::Shown { table } => promises(alloc, table, name_in(words), input, out),
        Command::More => refuse(alloc, out, Fault::Usage { word: 2 }),
        Command::Other => view(alloc, words, input, out),
    }
}
