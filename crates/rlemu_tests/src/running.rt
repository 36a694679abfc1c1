//! How a text of inputs and outputs is run.
use crate::alloc_rows::ALLOC_ROWS;
use crate::ask_refusals::ASK_REFUSALS;
use crate::check_rows::CHECK_ROWS;
use crate::enrol_refusals::ENROL_REFUSALS;
use crate::enrol_rows::ENROL_ROWS;
use crate::examples_a_to_d::EXAMPLES_A_TO_D;
use crate::examples_e_to_g::EXAMPLES_E_TO_G;
use crate::examples_h_to_l::EXAMPLES_H_TO_L;
use crate::examples_m_to_q::EXAMPLES_M_TO_Q;
use crate::examples_r_to_s::EXAMPLES_R_TO_S;
use crate::examples_t_to_z::EXAMPLES_T_TO_Z;
use crate::flat_rows::FLAT_ROWS;
use crate::id_rows::ID_ROWS;
use crate::kinds_rows::KINDS_ROWS;
use crate::member_rows::MEMBER_ROWS;
use crate::spent_rows::SPENT_ROWS;
use crate::storm_rows::STORM_ROWS;
use crate::tall_rows::TALL_ROWS;
use crate::wire_rows::WIRE_ROWS;
use rina_base::Name;
use rina_io::{MemSink, MemSource, take_all};
use rina_policy::{First, Last, Round, Shelf, Strict, Weighted};
use rina_run::{Status, run};
use std::alloc::Global;
use std::test::Fail;

/// What a test looks at of a run that has ended.
#[derive(Drop)]
pub(crate) struct Ended {
    pub(crate) status: Status,
    /// All that was written.
    pub(crate) written: Vec<u8>,
    /// How many notes its trace has.
    pub(crate) notes: usize,
    /// Whether it had a tower.
    pub(crate) has_tower: bool,
    /// How many bytes of the input it did not read, where no read fails.
    pub(crate) left: usize,
}

/// A shelf with the five built-in policies.
fn make_shelf(alloc: Global) -> Result<Shelf, Fail> {
    let mut shelf = Shelf::new(alloc)?;
    let name = Name::read(alloc, b"strict")?;
    shelf.add(alloc, name, Box::new(alloc, Strict::new())?)?;
    let name = Name::read(alloc, b"last")?;
    shelf.add(alloc, name, Box::new(alloc, Last::new())?)?;
    let name = Name::read(alloc, b"first")?;
    shelf.add(alloc, name, Box::new(alloc, First::new())?)?;
    let name = Name::read(alloc, b"round")?;
    shelf.add(alloc, name, Box::new(alloc, Round::new())?)?;
    let name = Name::read(alloc, b"weighted")?;
    shelf.add(alloc, name, Box::new(alloc, Weighted::new())?)?;
    Ok(shelf)
}

/// Runs an input with these words; reads and writes fail at the calls that are told.
pub(crate) fn ended_of(
    alloc: Global,
    words: &[&str],
    input: &str,
    reads: &[bool],
    writes: &[bool],
) -> Result<Ended, Fail> {
    let mut owned = Vec::new(alloc);
    for word in words {
        owned.push(String::from_str(alloc, word)?)?;
    }
    let mut source = MemSource::new(input.as_bytes().to_vec(alloc)?, reads.to_vec(alloc)?);
    let mut sink = MemSink::new(Vec::new(alloc), writes.to_vec(alloc)?);
    let shelf = make_shelf(alloc)?;
    let outcome = run(alloc, owned.as_slice(), &mut source, &mut sink, shelf);
    Ok(Ended {
        status: outcome.status,
        written: sink.bytes().to_vec(alloc)?,
        notes: outcome.trace.len(),
        has_tower: outcome.tower.is_some(),
        left: take_all(alloc, &mut source).bytes.len(),
    })
}

/// What a command writes of an input.
fn written(alloc: Global, command: &str, input: &str) -> Result<Vec<u8>, Fail> {
    Ok(ended_of(alloc, &[command], input, &[], &[])?.written)
}

/// The first example of a text that writes something else than its output, where there is one.
fn other_example<'a>(alloc: Global, command: &str, text: &'a str) -> Result<Option<&'a str>, Fail> {
    for example in text.split("====\n") {
        let (input, output) = example.split_once("----\n").ok_or("no output")?;
        if written(alloc, command, input)?.as_slice() != output.as_bytes() {
            return Ok(Some(example));
        }
    }
    Ok(None)
}

/// The first of some rows on a stack that writes something else than its output, where there is one.
fn other_row<'a>(alloc: Global, stack: &str, rows: &'a str) -> Result<Option<&'a str>, Fail> {
    for row in rows.split("====\n") {
        let (lines, output) = row.split_once("----\n").ok_or("no output")?;
        let input = format!(in alloc; "{stack}%%\n{lines}")?;
        if written(alloc, "run", input.as_str())?.as_slice() != output.as_bytes() {
            return Ok(Some(row));
        }
    }
    Ok(None)
}

/// And of all stacks of a text.
fn other_of_all<'a>(alloc: Global, text: &'a str) -> Result<Option<&'a str>, Fail> {
    for part in text.split("####\n") {
        let (stack, rows) = part.split_once("%%\n").ok_or("no rows")?;
        if let Some(row) = other_row(alloc, stack, rows)? {
            return Ok(Some(row));
        }
    }
    Ok(None)
}

#[test]
fn the_examples_from_a_to_d_write_their_outputs(rt: HostRuntime) -> Result<(), Fail> {
    assert_eq!(rt; other_example(rt.alloc(), "run", EXAMPLES_A_TO_D)?, None);
    Ok(())
}

#[test]
fn the_examples_from_e_to_g_write_their_outputs(rt: HostRuntime) -> Result<(), Fail> {
    assert_eq!(rt; other_example(rt.alloc(), "run", EXAMPLES_E_TO_G)?, None);
    Ok(())
}

#[test]
fn the_examples_from_h_to_l_write_their_outputs(rt: HostRuntime) -> Result<(), Fail> {
    assert_eq!(rt; other_example(rt.alloc(), "run", EXAMPLES_H_TO_L)?, None);
    Ok(())
}

#[test]
fn the_examples_from_m_to_q_write_their_outputs(rt: HostRuntime) -> Result<(), Fail> {
    assert_eq!(rt; other_example(rt.alloc(), "run", EXAMPLES_M_TO_Q)?, None);
    Ok(())
}

#[test]
fn the_examples_from_r_to_s_write_their_outputs(rt: HostRuntime) -> Result<(), Fail> {
    assert_eq!(rt; other_example(rt.alloc(), "run", EXAMPLES_R_TO_S)?, None);
    Ok(())
}

#[test]
fn the_examples_from_t_to_z_write_their_outputs(rt: HostRuntime) -> Result<(), Fail> {
    assert_eq!(rt; other_example(rt.alloc(), "run", EXAMPLES_T_TO_Z)?, None);
    Ok(())
}

#[test]
fn the_rows_of_one_wire_write_their_outputs(rt: HostRuntime) -> Result<(), Fail> {
    assert_eq!(rt; other_example(rt.alloc(), "run", WIRE_ROWS)?, None);
    Ok(())
}

#[test]
fn the_rows_of_storms_write_their_outputs(rt: HostRuntime) -> Result<(), Fail> {
    assert_eq!(rt; other_example(rt.alloc(), "run", STORM_ROWS)?, None);
    Ok(())
}

#[test]
fn the_rows_of_a_check_write_their_outputs(rt: HostRuntime) -> Result<(), Fail> {
    assert_eq!(rt; other_example(rt.alloc(), "check", CHECK_ROWS)?, None);
    Ok(())
}

#[test]
fn the_rows_of_one_dif_write_their_outputs(rt: HostRuntime) -> Result<(), Fail> {
    assert_eq!(rt; other_of_all(rt.alloc(), FLAT_ROWS)?, None);
    Ok(())
}

#[test]
fn the_rows_of_each_kind_write_their_outputs(rt: HostRuntime) -> Result<(), Fail> {
    assert_eq!(rt; other_of_all(rt.alloc(), KINDS_ROWS)?, None);
    Ok(())
}

#[test]
fn the_rows_of_spent_numbers_write_their_outputs(rt: HostRuntime) -> Result<(), Fail> {
    assert_eq!(rt; other_of_all(rt.alloc(), SPENT_ROWS)?, None);
    Ok(())
}

#[test]
fn the_rows_of_ranks_write_their_outputs(rt: HostRuntime) -> Result<(), Fail> {
    assert_eq!(rt; other_of_all(rt.alloc(), TALL_ROWS)?, None);
    Ok(())
}

#[test]
fn the_rows_of_members_write_their_outputs(rt: HostRuntime) -> Result<(), Fail> {
    assert_eq!(rt; other_of_all(rt.alloc(), MEMBER_ROWS)?, None);
    Ok(())
}

#[test]
fn the_rows_of_asked_flows_write_their_outputs(rt: HostRuntime) -> Result<(), Fail> {
    assert_eq!(rt; other_of_all(rt.alloc(), ALLOC_ROWS)?, None);
    Ok(())
}

#[test]
fn the_row_of_all_ids_writes_its_output(rt: HostRuntime) -> Result<(), Fail> {
    assert_eq!(rt; other_of_all(rt.alloc(), ID_ROWS)?, None);
    Ok(())
}

#[test]
fn the_rows_of_refused_asks_write_their_outputs(rt: HostRuntime) -> Result<(), Fail> {
    assert_eq!(rt; other_of_all(rt.alloc(), ASK_REFUSALS)?, None);
    Ok(())
}

#[test]
fn the_rows_of_enrolments_write_their_outputs(rt: HostRuntime) -> Result<(), Fail> {
    assert_eq!(rt; other_of_all(rt.alloc(), ENROL_ROWS)?, None);
    Ok(())
}

#[test]
fn the_rows_of_refused_enrolments_write_their_outputs(rt: HostRuntime) -> Result<(), Fail> {
    assert_eq!(rt; other_of_all(rt.alloc(), ENROL_REFUSALS)?, None);
    Ok(())
}
