//! The tables within a DIF.
ghost use Rattle.std.specs.Prelude.{◌≡◌, ◌≢◌, codes, IsSome, IfErr};
ghost use Rattle.toml.specs.View.{view};
ghost use Rattle.rina_table.specs.Faults.{Gives};
ghost use Rattle.rina_table.specs.Values.{text_at};
ghost use Rattle.rina_table.specs.Rows.{kind_of, act_of, kind_in, act_in, widths_at, manage_at, end_at};

use crate::error::StackError;
use crate::fields::{lower_of, name_of, node_of, number, number_or_else, subject_of, width_of};
use crate::rows::Row;
use crate::scope::Scope;
use crate::value::{require, text, truth_of, value_of};
use rina_access::{Act, Rule};
use rina_cube::{Cube, Kind};
use rina_pci::Widths;
use rina_plan::{EndPlan, FlowPlan, LinkPlan, MemberPlan};
use std::alloc::Global;
use toml::Value;

#[tactic(auto, unfolding(crate::specs::Rows::kind_of))]
fn kind(word: &str) -> Option<Kind>
    ensures { result ≡ kind_of word.now }
{
    match word {
        "datagram" => Some(Kind::Datagram),
        "loose" => Some(Kind::Loose),
        "reliable" => Some(Kind::Reliable),
        _ => None,
    }
}

#[tactic(auto, unfolding(crate::specs::Rows::act_of))]
fn act(word: &str) -> Option<Act>
    ensures { result ≡ act_of word.now }
{
    match word {
        "allocate" => Some(Act::Allocate),
        "enrol" => Some(Act::Enrol),
        _ => None,
    }
}

#[tactic(auto, unfolding(crate::specs::Rows::kind_in))]
fn kind_at(item: usize, table: &Value) -> Result<Kind, StackError>
    ensures read { Gives (λ k. k) result (kind_in item (view table.now)) }
    ensures memory { IfErr result (λ e. e ≢ StackError.Memory) }
{
    match text(table, "kind") {
        Some(word) => require(item, kind(word)),
        None => require(item, None),
    }
}

#[tactic(auto, unfolding(crate::specs::Rows::act_in))]
fn act_at(item: usize, table: &Value) -> Result<Act, StackError>
    ensures read { Gives (λ k. k) result (act_in item (view table.now)) }
    ensures memory { IfErr result (λ e. e ≢ StackError.Memory) }
{
    match text(table, "act") {
        Some(word) => require(item, act(word)),
        None => require(item, None),
    }
}

/// The widths of the fields of a PDU.
#[tactic(auto, unfolding(crate::specs::Rows::widths_at))]
pub(crate) fn widths(scope: &Scope<'_>, item: usize, table: &Value) -> Result<Widths, StackError>
    ensures read { Gives (λ w. w) result (widths_at scope.now item (view table.now)) }
    ensures memory { IfErr result (λ e. e ≢ StackError.Memory) }
{
    let addr = width_of(scope, item, table, "addr")?;
    let cep = width_of(scope, item, table, "cep")?;
    let len = width_of(scope, item, table, "len")?;
    let seq = width_of(scope, item, table, "seq")?;
    Ok(Widths {
        addr,
        cep,
        len,
        seq,
    })
}

/// The cube of management, which carries messages of up to 325 bytes.
#[tactic(auto, unfolding(crate::specs::Rows::manage_at))]
pub(crate) fn manage(scope: &Scope<'_>, item: usize, table: &Value) -> Result<Cube, StackError>
    ensures read { Gives (λ c. c) result (manage_at scope.now item (view table.now)) }
    ensures memory { IfErr result (λ e. e ≢ StackError.Memory) }
{
    let mpl = number(scope, item, table, "mpl", 1, 1_000_000)?;
    let r = number(scope, item, table, "r", 0, 1_000_000)?;
    let a = number(scope, item, table, "a", 0, 1_000_000)?;
    let retry = number(scope, item, table, "retry", 0, 1_000_000)?;
    let window = number(scope, item, table, "window", 1, 256)?;
    Ok(Cube {
        id: 0,
        kind: Kind::Reliable,
        mpl: mpl as u32,
        r: r as u32,
        a: a as u32,
        retry: retry as u32,
        window: window as u32,
        largest: 325,
    })
}

impl Row for Cube {
    ghost use Rattle.rina_table.specs.Rows.{cube_at};

    ghost reads_as = { cube_at };

    ghost copies = { λ d. ⊥ };

    #[tactic(auto, unfolding(crate::specs::Rows::cube_at))]
    fn read(
        _alloc: Global,
        scope: &Scope<'_>,
        item: usize,
        table: &Value,
    ) -> Result<Cube, StackError> {
        let id = number(scope, item, table, "id", 1, 255)?;
        let kind = kind_at(item, table)?;
        let mpl = number(scope, item, table, "mpl", 1, 1_000_000)?;
        let r = number_or_else(scope, item, table, "r", 0, 1_000_000)?;
        let a = number_or_else(scope, item, table, "a", 0, 1_000_000)?;
        let retry = number_or_else(scope, item, table, "retry", 0, 1_000_000)?;
        let window = number(scope, item, table, "window", 1, 256)?;
        let largest = number(scope, item, table, "largest", 1, 65_535)?;
        Ok(Cube {
            id: id as u8,
            kind,
            mpl: mpl as u32,
            r: r as u32,
            a: a as u32,
            retry: retry as u32,
            window: window as u32,
            largest: largest as u32,
        })
    }
}

impl Row for MemberPlan {
    ghost use Rattle.std.specs.Prelude.{codes, IsSome};
    ghost use Rattle.rina_table.specs.Values.{text_at};
    ghost use Rattle.rina_table.specs.Rows.{member_at};

    ghost reads_as = { member_at };

    ghost copies = { λ d. IsSome (text_at (codes "node") d) };

    #[tactic(auto, unfolding(crate::specs::Rows::member_at))]
    fn read(
        alloc: Global,
        scope: &Scope<'_>,
        item: usize,
        table: &Value,
    ) -> Result<MemberPlan, StackError> {
        let node = node_of(alloc, scope, item, table, "node")?;
        let addr = number(scope, item, table, "addr", 0, 4_294_967_295)?;
        Ok(MemberPlan {
            node,
            addr: addr as u32,
        })
    }
}

impl Row for Rule {
    ghost use Rattle.std.specs.Prelude.{codes, IsSome};
    ghost use Rattle.rina_table.specs.Values.{text_at};
    ghost use Rattle.rina_table.specs.Rows.{rule_at};

    ghost reads_as = { rule_at };

    ghost copies = { λ d. IsSome (text_at (codes "subject") d) };

    #[tactic(auto, unfolding(crate::specs::Rows::rule_at))]
    fn read(
        alloc: Global,
        scope: &Scope<'_>,
        item: usize,
        table: &Value,
    ) -> Result<Rule, StackError> {
        let subject = subject_of(alloc, scope, item, table, "subject")?;
        let act = act_at(item, table)?;
        let allow = truth_of(item, table, "allow")?;
        Ok(Rule {
            subject,
            act,
            allow,
        })
    }
}

impl Row for LinkPlan {
    ghost use Rattle.std.specs.Prelude.{codes, IsSome};
    ghost use Rattle.rina_table.specs.Values.{text_at};
    ghost use Rattle.rina_table.specs.Rows.{link_at};

    ghost reads_as = { link_at };

    ghost copies = { λ d. IsSome (text_at (codes "on") d) };

    #[tactic(auto, unfolding(crate::specs::Rows::link_at))]
    fn read(
        alloc: Global,
        scope: &Scope<'_>,
        item: usize,
        table: &Value,
    ) -> Result<LinkPlan, StackError> {
        let on = lower_of(alloc, scope, item, table, "on")?;
        let a = node_of(alloc, scope, item, table, "a")?;
        let b = node_of(alloc, scope, item, table, "b")?;
        let weight = number_or_else(scope, item, table, "weight", 1, 65_535)?;
        let cube = number_or_else(scope, item, table, "cube", 0, 255)?;
        Ok(LinkPlan {
            on,
            a,
            b,
            weight: weight as u16,
            cube: cube as u8,
        })
    }
}

#[tactic(auto, unfolding(crate::specs::Rows::end_at))]
fn end(alloc: Global, scope: &Scope<'_>, item: usize, table: &Value) -> Result<EndPlan, StackError>
    ensures read { Gives (λ e. e) result (end_at scope.now item (view table.now)) }
    ensures memory { IfErr result (λ e. e ≡ StackError.Memory → IsSome (text_at (codes "node") (view table.now))) }
{
    let node = node_of(alloc, scope, item, table, "node")?;
    let app = name_of(alloc, scope, item, table, "app")?;
    let label = name_of(alloc, scope, item, table, "label")?;
    Ok(EndPlan { node, app, label })
}

impl Row for FlowPlan {
    ghost use Rattle.std.specs.Prelude.{codes, IsSome};
    ghost use Rattle.toml.specs.Data.{get};
    ghost use Rattle.rina_table.specs.Rows.{flow_at};

    ghost reads_as = { flow_at };

    ghost copies = { λ d. IsSome (get (codes "from") d) };

    #[tactic(auto, unfolding(crate::specs::Rows::flow_at))]
    fn read(
        alloc: Global,
        scope: &Scope<'_>,
        item: usize,
        table: &Value,
    ) -> Result<FlowPlan, StackError> {
        let cube = number(scope, item, table, "cube", 0, 255)?;
        let from = value_of(item, table, "from")?;
        let to = value_of(item, table, "to")?;
        let asker = end(alloc, scope, item, from)?;
        let other = end(alloc, scope, item, to)?;
        Ok(FlowPlan {
            cube: cube as u8,
            from: asker,
            to: other,
        })
    }
}
