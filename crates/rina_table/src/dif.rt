//! The table of a DIF.
ghost use Rattle.std.specs.Prelude.{◌≡◌, ◌≢◌, codes, IsSome, IfErr, OnOk};
ghost use Rattle.toml.specs.View.{view};
ghost use Rattle.rina_table.specs.Faults.{Gives, unless};
ghost use Rattle.rina_table.specs.Values.{text_at};
ghost use Rattle.rina_table.specs.Items.{unknown_at, widths_in, manage_in};
ghost use Rattle.rina_table.specs.Groups.{numbers_at, policy_at, head_at, asking_at, access_at, lists_at};

use crate::dif_rows::{manage, widths};
use crate::error::{StackError, rule_error};
use crate::fields::{name_of, number};
use crate::rows::{Row, rows_of, rows_or_none};
use crate::scope::Scope;
use crate::value::{truth_or_else, value_of};
use rina_access::Rule;
use rina_base::{Name, Seq};
use rina_cube::Cube;
use rina_pci::Widths;
use rina_plan::{DifPlan, FlowPlan, LinkPlan, MemberPlan};
use std::alloc::Global;
use toml::Value;

/// Refuses the DIF whose policy does not exist (rule 7).
fn known_policy(scope: &Scope<'_>, item: usize) -> Result<(), StackError>
    ensures read { Gives (λ t. t) result (unless 7 (unknown_at scope.now.unknown item)) }
    ensures memory { IfErr result (λ e. e ≢ StackError.Memory) }
{
    match scope.unknown {
        Some(at) if at == item => Err(rule_error(7, item)),
        _ => Ok(()),
    }
}

#[tactic(auto, unfolding(crate::specs::Items::widths_in))]
fn widths_of(scope: &Scope<'_>, item: usize, table: &Value) -> Result<Widths, StackError>
    ensures read { Gives (λ w. w) result (widths_in scope.now item (view table.now)) }
    ensures memory { IfErr result (λ e. e ≢ StackError.Memory) }
{
    let part = value_of(item, table, "widths")?;
    widths(scope, item, part)
}

#[tactic(auto, unfolding(crate::specs::Items::manage_in))]
fn manage_of(scope: &Scope<'_>, item: usize, table: &Value) -> Result<Cube, StackError>
    ensures read { Gives (λ c. c) result (manage_in scope.now item (view table.now)) }
    ensures memory { IfErr result (λ e. e ≢ StackError.Memory) }
{
    let part = value_of(item, table, "manage")?;
    manage(scope, item, part)
}

/// The numbers of a DIF.
#[derive(Drop)]
struct Numbers {
    rank: u8,
    is_static: bool,
    pdu: u32,
    widths: Widths,
    queue: u32,
}

#[tactic(auto, unfolding(crate::specs::Groups::numbers_at))]
fn read_numbers(scope: &Scope<'_>, item: usize, table: &Value) -> Result<Numbers, StackError>
    ensures read { Gives (λ t. t) result (numbers_at scope.now item (view table.now)) }
    ensures memory { IfErr result (λ e. e ≢ StackError.Memory) }
{
    let rank = number(scope, item, table, "rank", 1, 8)?;
    let is_static = truth_or_else(item, false, table, "static")?;
    let pdu = number(scope, item, table, "pdu", 18, 4096)?;
    let widths = widths_of(scope, item, table)?;
    let queue = number(scope, item, table, "queue", 1, 256)?;
    Ok(Numbers {
        rank: rank as u8,
        is_static,
        pdu: pdu as u32,
        widths,
        queue: queue as u32,
    })
}

/// The policy of a DIF, which has to exist (rule 7).
#[tactic(auto, unfolding(crate::specs::Groups::policy_at))]
fn read_policy(
    alloc: Global,
    scope: &Scope<'_>,
    item: usize,
    table: &Value,
) -> Result<Name, StackError>
    ensures { Gives (λ t. t) result (policy_at scope.now item (view table.now)) }
{
    let policy = name_of(alloc, scope, item, table, "policy")?;
    known_policy(scope, item)?;
    Ok(policy)
}

/// What a DIF is called, its numbers and its policy.
#[derive(Drop)]
struct Head {
    name: Name,
    numbers: Numbers,
    policy: Name,
}

#[tactic(auto, unfolding(crate::specs::Groups::head_at))]
fn read_head(
    alloc: Global,
    scope: &Scope<'_>,
    item: usize,
    table: &Value,
) -> Result<Head, StackError>
    ensures read { Gives (λ t. t) result (head_at scope.now item (view table.now)) }
    ensures memory { IfErr result (λ e. e ≡ StackError.Memory → IsSome (text_at (codes "name") (view table.now))) }
    ensures there { OnOk result (IsSome (text_at (codes "name") (view table.now))) }
{
    let name = name_of(alloc, scope, item, table, "name")?;
    let numbers = read_numbers(scope, item, table)?;
    let policy = read_policy(alloc, scope, item, table)?;
    Ok(Head {
        name,
        numbers,
        policy,
    })
}

/// How long an asker waits, and the cube of management.
#[tactic(auto, unfolding(crate::specs::Groups::asking_at))]
fn read_asking(scope: &Scope<'_>, item: usize, table: &Value) -> Result<(u32, Cube), StackError>
    ensures read { Gives (λ t. t) result (asking_at scope.now item (view table.now)) }
    ensures memory { IfErr result (λ e. e ≢ StackError.Memory) }
{
    let wait = number(scope, item, table, "wait", 1, 1_000_000)?;
    let manage = manage_of(scope, item, table)?;
    Ok((wait as u32, manage))
}

/// Whether an act is allowed where no rule matches, and the rules.
#[tactic(auto, unfolding(crate::specs::Groups::access_at))]
fn read_access(
    alloc: Global,
    scope: &Scope<'_>,
    item: usize,
    table: &Value,
) -> Result<(bool, Seq<Rule>), StackError>
    ensures { Gives (λ t. t) result (access_at scope.now item (view table.now)) }
{
    let allow = truth_or_else(item, true, table, "default")?;
    let rules = rows_or_none(alloc, scope, item, table, "rule")?;
    Ok((allow, rules))
}

/// What stands in the lists of a DIF.
#[derive(Drop)]
struct Lists {
    cubes: Seq<Cube>,
    members: Seq<MemberPlan>,
    allow: bool,
    rules: Seq<Rule>,
    links: Seq<LinkPlan>,
    flows: Seq<FlowPlan>,
}

#[tactic(auto, unfolding(crate::specs::Groups::lists_at))]
fn read_lists(
    alloc: Global,
    scope: &Scope<'_>,
    item: usize,
    table: &Value,
) -> Result<Lists, StackError>
    ensures { Gives (λ t. t) result (lists_at scope.now item (view table.now)) }
{
    let cubes = rows_of(alloc, scope, item, table, "cube")?;
    let members = rows_of(alloc, scope, item, table, "member")?;
    let (allow, rules) = read_access(alloc, scope, item, table)?;
    let links = rows_or_none(alloc, scope, item, table, "link")?;
    let flows = rows_or_none(alloc, scope, item, table, "flow")?;
    Ok(Lists {
        cubes,
        members,
        allow,
        rules,
        links,
        flows,
    })
}

impl Row for DifPlan {
    ghost use Rattle.std.specs.Prelude.{codes, IsSome};
    ghost use Rattle.rina_table.specs.Values.{text_at};
    ghost use Rattle.rina_table.specs.Items.{dif_at};

    ghost reads_as = { dif_at };

    ghost copies = { λ d. IsSome (text_at (codes "name") d) };

    #[tactic(auto, using(crate::proofs::Groups::dif_groups))]
    fn read(
        alloc: Global,
        scope: &Scope<'_>,
        item: usize,
        table: &Value,
    ) -> Result<DifPlan, StackError> {
        let head = read_head(alloc, scope, item, table)?;
        let (wait, manage) = read_asking(scope, item, table)?;
        let lists = read_lists(alloc, scope, item, table)?;
        Ok(DifPlan {
            name: head.name,
            rank: head.numbers.rank,
            is_static: head.numbers.is_static,
            pdu: head.numbers.pdu,
            widths: head.numbers.widths,
            queue: head.numbers.queue,
            policy: head.policy,
            wait,
            manage,
            cubes: lists.cubes,
            members: lists.members,
            allow: lists.allow,
            rules: lists.rules,
            links: lists.links,
            flows: lists.flows,
        })
    }
}
