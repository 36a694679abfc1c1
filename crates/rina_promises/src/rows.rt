//! What a flow of a DIF promises in both directions.
ghost use Rattle.std.specs.Prelude.{◌<◌, ◌^◌, IfOk, IsSome};
ghost use Rattle.rina_data.specs.Configs.{cube_by};
ghost use Rattle.rina_schedule.specs.Spelling.{Adds};
ghost use Rattle.rina_tower.specs.Ranks.{seen_of};
ghost use Rattle.rina_tower.specs.Stands.{IsTower};
ghost use Rattle.rina_way.specs.Ways.{IsRow};
ghost use Rattle.rina_promises.specs.Promises.{AreRows, flow_text};

use rina_base::{Memory, Name};
use rina_dif::Dif;
use rina_plan::FlowPlan;
use rina_schedule::Text;
use rina_tower::Tower;
use rina_way::{Row, add_row, row_of};
use std::alloc::Global;

/// Both directions of a flow.
#[derive(Drop)]
pub struct Rows {
    /// From its end `from` to its end `to`.
    pub there: Row,
    /// From its end `to` to its end `from`.
    pub back: Row,
}

/// The direction of a flow from a node to another.
pub(crate) fn row(
    alloc: Global,
    below: &Tower,
    dif: &Dif,
    id: u8,
    from: usize,
    to: usize,
) -> Result<Row, Memory>
    requires below { IsTower below.now }
    requires from { from < 2 ^ 16 }
    requires to { to < 2 ^ 16 }
    requires cube { IsSome (cube_by id dif.now.settings.cubes) }
    ensures { IfOk result (IsRow (seen_of below.now) dif.now.settings dif.now.processes id from to) }
{
    let (settings, processes) = (dif.settings(), dif.processes());
    match row_of(
        alloc,
        below,
        settings,
        processes,
        id,
        from as u16,
        to as u16,
    )? {
        Some(row) => Ok(row),
        None => unreachable!(),
    }
}

/// Both directions of a flow of a DIF over a tower.
pub fn rows_of(alloc: Global, below: &Tower, dif: &Dif, flow: &FlowPlan) -> Result<Rows, Memory>
    requires below { IsTower below.now }
    requires from { flow.now.from.node < 2 ^ 16 }
    requires to { flow.now.to.node < 2 ^ 16 }
    requires cube { IsSome (cube_by flow.now.cube dif.now.settings.cubes) }
    ensures { IfOk result (AreRows below.now dif.now flow.now) }
{
    let there = row(alloc, below, dif, flow.cube, flow.from.node, flow.to.node)?;
    let back = row(alloc, below, dif, flow.cube, flow.to.node, flow.from.node)?;
    Ok(Rows { there, back })
}

/// Appends the lines of both directions of a flow.
pub fn add_rows(
    text: &mut Text,
    nodes: &[Name],
    fac: &Name,
    flow: &FlowPlan,
    rows: &Rows,
) -> Result<(), Memory>
    ensures { Adds result text.old text.new (flow_text nodes.now fac.now flow.now rows.now) }
{
    let (from, to) = (flow.from.label.as_bytes(), flow.to.label.as_bytes());
    add_row(text, fac, from, to, nodes, &rows.there)?;
    add_row(text, fac, to, from, nodes, &rows.back)
}
