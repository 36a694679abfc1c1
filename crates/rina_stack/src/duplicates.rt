//! Rule 5: no name stands twice.
ghost use Rattle.std.specs.Prelude.{◌≡◌, ◌+◌, ◌*◌, ◌<◌, ◌++◌, length, map, IfOk, IfSome, OnOk, Ok, is_some};
ghost use Rattle.rina_table.specs.Faults.{Gives};
ghost use Rattle.rina_stack.specs.Rules.{duplicate_in, wire_names, dif_names, flow_labels, labels, owner_of, earlier, facility_duplicate, label_duplicate, duplicate_fault};

use rina_base::Name;
use rina_plan::{DifPlan, FlowPlan};
use rina_table::{Sketch, StackError, WireSketch, first_dif_item};
use std::alloc::{AllocError, Global};
use std::collections::BTreeMap;

/// The place of the first text that equals one before it.
fn first_duplicate(alloc: Global, texts: &[&[u8]]) -> Result<Option<usize>, AllocError>
    ensures place { IfOk result (λ f. f ≡ duplicate_in (map (λ t. t.now) texts.now)) }
    ensures within { IfOk result (λ f. IfSome f (λ i. i < length texts.now)) }
{
    let mut seen = BTreeMap::new(alloc);
    let mut at = 0usize;
    'texts: for text in texts {
        if seen.insert(*text, at)?.is_some() {
            return Ok(Some(at));
        }
        at += 1;
    }
    Ok(None)
}

/// The texts of names.
pub(crate) fn texts_of<'a>(alloc: Global, names: &'a [Name]) -> Result<Vec<&'a [u8]>, AllocError>
    ensures { IfOk result (λ v. map (λ t. t.now) v.items ≡ names.now) }
{
    let mut texts = Vec::new(alloc);
    'names: for name in names {
        texts.push(name.as_bytes())?;
    }
    Ok(texts)
}

/// The names of wires.
pub(crate) fn names_of_wires<'a>(
    alloc: Global,
    wires: &'a [WireSketch],
) -> Result<Vec<&'a [u8]>, AllocError>
    ensures { IfOk result (λ v. map (λ t. t.now) v.items ≡ wire_names wires.now) }
{
    let mut names = Vec::new(alloc);
    'wires: for wire in wires {
        names.push(wire.name.as_bytes())?;
    }
    Ok(names)
}

/// Adds the names of DIFs.
fn add_names_of_difs<'a>(names: &mut Vec<&'a [u8]>, difs: &'a [DifPlan]) -> Result<(), AllocError>
    ensures { OnOk result (map (λ t. t.now) names.new.items ≡ map (λ t. t.now) names.old.items ++ dif_names difs.now) }
{
    'difs: for dif in difs {
        names.push(dif.name.as_bytes())?;
    }
    Ok(())
}

/// The names of DIFs.
pub(crate) fn names_of_difs<'a>(
    alloc: Global,
    difs: &'a [DifPlan],
) -> Result<Vec<&'a [u8]>, AllocError>
    ensures { IfOk result (λ v. map (λ t. t.now) v.items ≡ dif_names difs.now) }
{
    let mut names = Vec::new(alloc);
    add_names_of_difs(&mut names, difs)?;
    Ok(names)
}

/// Adds the labels of flows.
fn add_labels<'a>(texts: &mut Vec<&'a [u8]>, flows: &'a [FlowPlan]) -> Result<(), AllocError>
    ensures { OnOk result (map (λ t. t.now) texts.new.items ≡ map (λ t. t.now) texts.old.items ++ flow_labels flows.now) }
{
    'flows: for flow in flows {
        texts.push(flow.from.label.as_bytes())?;
        texts.push(flow.to.label.as_bytes())?;
    }
    Ok(())
}

/// The labels of all flows.
fn labels_of<'a>(alloc: Global, difs: &'a [DifPlan]) -> Result<Vec<&'a [u8]>, AllocError>
    ensures { IfOk result (λ v. map (λ t. t.now) v.items ≡ labels difs.now) }
{
    let mut texts = Vec::new(alloc);
    'difs: for dif in difs {
        add_labels(&mut texts, dif.flows.as_slice())?;
    }
    Ok(texts)
}

/// The place of the DIF whose flows have the label at a place, of all labels.
fn owner(difs: &[DifPlan], at: usize) -> Option<usize>
    ensures place { result ≡ owner_of at difs.now }
    ensures within { IfSome result (λ i. i < length difs.now) }
{
    let mut left = at;
    let mut number = 0usize;
    'difs: for dif in difs {
        let flows = dif.flows.len();
        if left / 2 < flows {
            return Some(number);
        }
        left -= flows * 2;
        number += 1;
    }
    None
}

/// The item of the first wire or DIF whose name a wire or DIF before it has.
fn facility_named_twice(alloc: Global, sketch: &Sketch) -> Result<Option<usize>, AllocError>
    ensures { IfOk result (λ f. f ≡ facility_duplicate sketch.now) }
{
    let mut names = names_of_wires(alloc, sketch.wires.as_slice())?;
    add_names_of_difs(&mut names, sketch.difs.as_slice())?;
    match first_duplicate(alloc, names.as_slice())? {
        Some(at) => Ok(Some(1 + at)),
        None => Ok(None),
    }
}

fn dif_with_duplicate(alloc: Global, difs: &[DifPlan]) -> Result<Option<usize>, AllocError>
    ensures place { IfOk result (λ f. f ≡ label_duplicate difs.now) }
    ensures within { IfOk result (λ f. IfSome f (λ i. i < length difs.now)) }
{
    let labels = labels_of(alloc, difs)?;
    match first_duplicate(alloc, labels.as_slice())? {
        Some(at) => Ok(owner(difs, at)),
        None => Ok(None),
    }
}

/// The earlier of two items.
fn earlier(one: Option<usize>, other: Option<usize>) -> Option<usize>
    ensures { result ≡ earlier one other }
{
    match (one, other) {
        (Some(one), Some(other)) => Some(one.min(other)),
        (Some(one), None) => Some(one),
        (None, other) => other,
    }
}

fn node_named_twice(alloc: Global, nodes: &[Name]) -> Result<bool, AllocError>
    ensures { IfOk result (λ b. b ≡ is_some (duplicate_in nodes.now)) }
{
    let texts = texts_of(alloc, nodes)?;
    Ok(first_duplicate(alloc, texts.as_slice())?.is_some())
}

/// The first item with a name that stands twice (rule 5).
#[tactic(auto, unfolding(crate::specs::Rules::duplicate_fault))]
pub(crate) fn named_twice(alloc: Global, sketch: &Sketch) -> Result<Option<usize>, StackError>
    ensures { Gives (λ f. f) result (Ok (duplicate_fault sketch.now)) }
{
    if node_named_twice(alloc, sketch.nodes.as_slice())? {
        return Ok(Some(0));
    }
    let facility = facility_named_twice(alloc, sketch)?;
    let difs = sketch.difs.as_slice();
    let first = first_dif_item(sketch.wires.len(), difs.len())?;
    match dif_with_duplicate(alloc, difs)? {
        Some(at) => Ok(earlier(facility, Some(first + at))),
        None => Ok(facility),
    }
}
