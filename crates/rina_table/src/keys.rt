//! Rule 2: a table has no key but those that are listed.
ghost use Rattle.std.specs.Prelude.{◌≡◌, ◌+◌, ◌<◌, map, not, Ok, length, position, string_bytes, IfSome, IsOk};
ghost use Rattle.std.specs.List.{list_all, list_any};
ghost use Rattle.std.specs.BTreeMap.{keys};
ghost use Rattle.toml.specs.View.{view, table_view};
ghost use Rattle.rina_table.specs.Faults.{Gives};
ghost use Rattle.rina_table.specs.Keys.{is_top_key, is_wire_key, is_storm_key, is_dif_key, is_widths_key, is_manage_key, is_cube_key, is_member_key, is_rule_key, is_link_key, is_flow_key, is_end_key, is_key, all_keys, has_unlisted, items_at, has_unlisted_at, has_unlisted_among, wire_has_unlisted, flow_has_unlisted, dif_has_unlisted, keys_fault};

use crate::error::{StackError, first_dif_item};
use crate::value::items_at;
use toml::{Table, Value};

/// A kind of table.
#[derive(Clone, Copy)]
pub(crate) enum Shape {
    Top,
    Wire,
    Storm,
    Dif,
    Widths,
    Manage,
    Cube,
    Member,
    Rule,
    Link,
    Flow,
    End,
}

#[tactic(auto, unfolding(crate::specs::Keys::is_top_key))]
fn is_top(key: &str) -> bool
    ensures { result ≡ is_top_key key.now }
{
    matches!(key, "nodes" | "rounds" | "wire" | "dif")
}

#[tactic(auto, unfolding(crate::specs::Keys::is_wire_key))]
fn is_wire(key: &str) -> bool
    ensures { result ≡ is_wire_key key.now }
{
    matches!(
        key,
        "name" | "ends" | "delay" | "life" | "largest" | "storm"
    )
}

#[tactic(auto, unfolding(crate::specs::Keys::is_storm_key))]
fn is_storm(key: &str) -> bool
    ensures { result ≡ is_storm_key key.now }
{
    matches!(key, "seed" | "lose" | "repeat" | "spread")
}

#[tactic(auto, unfolding(crate::specs::Keys::is_dif_key))]
fn is_dif(key: &str) -> bool
    ensures { result ≡ is_dif_key key.now }
{
    matches!(
        key,
        "name"
            | "rank"
            | "static"
            | "pdu"
            | "widths"
            | "queue"
            | "policy"
            | "wait"
            | "manage"
            | "cube"
            | "member"
            | "default"
            | "rule"
            | "link"
            | "flow"
    )
}

#[tactic(auto, unfolding(crate::specs::Keys::is_widths_key))]
fn is_widths(key: &str) -> bool
    ensures { result ≡ is_widths_key key.now }
{
    matches!(key, "addr" | "cep" | "len" | "seq")
}

#[tactic(auto, unfolding(crate::specs::Keys::is_manage_key))]
fn is_manage(key: &str) -> bool
    ensures { result ≡ is_manage_key key.now }
{
    matches!(key, "mpl" | "r" | "a" | "retry" | "window")
}

#[tactic(auto, unfolding(crate::specs::Keys::is_cube_key))]
fn is_cube(key: &str) -> bool
    ensures { result ≡ is_cube_key key.now }
{
    matches!(
        key,
        "id" | "kind" | "mpl" | "window" | "largest" | "r" | "a" | "retry"
    )
}

#[tactic(auto, unfolding(crate::specs::Keys::is_member_key))]
fn is_member(key: &str) -> bool
    ensures { result ≡ is_member_key key.now }
{
    matches!(key, "node" | "addr")
}

#[tactic(auto, unfolding(crate::specs::Keys::is_rule_key))]
fn is_rule(key: &str) -> bool
    ensures { result ≡ is_rule_key key.now }
{
    matches!(key, "subject" | "act" | "allow")
}

#[tactic(auto, unfolding(crate::specs::Keys::is_link_key))]
fn is_link(key: &str) -> bool
    ensures { result ≡ is_link_key key.now }
{
    matches!(key, "on" | "a" | "b" | "weight" | "cube")
}

#[tactic(auto, unfolding(crate::specs::Keys::is_flow_key))]
fn is_flow(key: &str) -> bool
    ensures { result ≡ is_flow_key key.now }
{
    matches!(key, "cube" | "from" | "to")
}

#[tactic(auto, unfolding(crate::specs::Keys::is_end_key))]
fn is_end(key: &str) -> bool
    ensures { result ≡ is_end_key key.now }
{
    matches!(key, "node" | "app" | "label")
}

#[tactic(auto, unfolding(crate::specs::Keys::is_key))]
fn is_listed(of: Shape, key: &str) -> bool
    ensures { result ≡ is_key of key.now }
{
    match of {
        Shape::Top => is_top(key),
        Shape::Wire => is_wire(key),
        Shape::Storm => is_storm(key),
        Shape::Dif => is_dif(key),
        Shape::Widths => is_widths(key),
        Shape::Manage => is_manage(key),
        Shape::Cube => is_cube(key),
        Shape::Member => is_member(key),
        Shape::Rule => is_rule(key),
        Shape::Link => is_link(key),
        Shape::Flow => is_flow(key),
        Shape::End => is_end(key),
    }
}

fn each_is_listed(of: Shape, table: &Table) -> bool
    ensures { result ≡ list_all (λ k. is_key of (string_bytes k)) (keys table.now) }
{
    table.keys().all(|key| is_listed(of, key.as_str()))
}

fn all_listed(of: Shape, table: &Table) -> bool
    ensures { result ≡ all_keys (is_key of) (table_view table.now) }
{
    each_is_listed(of, table)
}

/// Whether a table has a key that is not listed.
#[tactic(auto, unfolding(crate::specs::Keys::has_unlisted))]
fn has_unlisted(of: Shape, value: &Value) -> bool
    ensures { result ≡ has_unlisted of (view value.now) }
{
    match value.as_table() {
        Some(table) => !all_listed(of, table),
        None => false,
    }
}

/// Whether the table at a key has a key that is not listed.
fn has_unlisted_at(of: Shape, value: &Value, key: &str) -> bool
    ensures { result ≡ has_unlisted_at of key.now (view value.now) }
{
    match value.get(key) {
        Some(table) => has_unlisted(of, table),
        None => false,
    }
}

#[tactic(auto, using(std::proofs::lemmas::List::drop_more))]
fn any_value_has_unlisted(of: Shape, values: &[Value]) -> bool
    ensures { result ≡ list_any (λ v. has_unlisted of (view v)) values.now }
{
    'values: for value in values {
        if has_unlisted(of, value) {
            return true;
        }
    }
    false
}

fn any_has_unlisted(of: Shape, values: &[Value]) -> bool
    ensures { result ≡ list_any (has_unlisted of) (map view values.now) }
{
    any_value_has_unlisted(of, values)
}

/// Whether a table of the list at a key has a key that is not listed.
fn has_unlisted_among(of: Shape, value: &Value, key: &str) -> bool
    ensures { result ≡ has_unlisted_among of key.now (view value.now) }
{
    any_has_unlisted(of, items_at(value, key))
}

#[tactic(auto, unfolding(crate::specs::Keys::wire_has_unlisted))]
fn wire_has_unlisted(value: &Value) -> bool
    ensures { result ≡ wire_has_unlisted (view value.now) }
{
    has_unlisted(Shape::Wire, value) || has_unlisted_at(Shape::Storm, value, "storm")
}

#[tactic(auto, unfolding(crate::specs::Keys::flow_has_unlisted))]
fn flow_has_unlisted(value: &Value) -> bool
    ensures { result ≡ flow_has_unlisted (view value.now) }
{
    has_unlisted(Shape::Flow, value)
        || has_unlisted_at(Shape::End, value, "from")
        || has_unlisted_at(Shape::End, value, "to")
}

#[tactic(auto, using(std::proofs::lemmas::List::drop_more))]
fn any_flow_value_has_unlisted(values: &[Value]) -> bool
    ensures { result ≡ list_any (λ v. flow_has_unlisted (view v)) values.now }
{
    'values: for value in values {
        if flow_has_unlisted(value) {
            return true;
        }
    }
    false
}

fn any_flow_has_unlisted(values: &[Value]) -> bool
    ensures { result ≡ list_any flow_has_unlisted (map view values.now) }
{
    any_flow_value_has_unlisted(values)
}

#[tactic(auto, unfolding(crate::specs::Keys::dif_has_unlisted))]
fn dif_has_unlisted(value: &Value) -> bool
    ensures { result ≡ dif_has_unlisted (view value.now) }
{
    has_unlisted(Shape::Dif, value)
        || has_unlisted_at(Shape::Widths, value, "widths")
        || has_unlisted_at(Shape::Manage, value, "manage")
        || has_unlisted_among(Shape::Cube, value, "cube")
        || has_unlisted_among(Shape::Member, value, "member")
        || has_unlisted_among(Shape::Rule, value, "rule")
        || has_unlisted_among(Shape::Link, value, "link")
        || any_flow_has_unlisted(items_at(value, "flow"))
}

fn first_value_of_unlisted_wire(values: &[Value]) -> Option<usize>
    ensures place { result ≡ position (λ v. wire_has_unlisted (view v)) values.now }
    ensures within { IfSome result (λ i. i < length values.now) }
{
    let mut at = 0usize;
    'values: for value in values {
        if wire_has_unlisted(value) {
            return Some(at);
        }
        at += 1;
    }
    None
}

fn first_unlisted_wire(values: &[Value]) -> Option<usize>
    ensures place { result ≡ position wire_has_unlisted (map view values.now) }
    ensures within { IfSome result (λ i. i < length values.now) }
{
    first_value_of_unlisted_wire(values)
}

fn first_value_of_unlisted_dif(values: &[Value]) -> Option<usize>
    ensures place { result ≡ position (λ v. dif_has_unlisted (view v)) values.now }
    ensures within { IfSome result (λ i. i < length values.now) }
{
    let mut at = 0usize;
    'values: for value in values {
        if dif_has_unlisted(value) {
            return Some(at);
        }
        at += 1;
    }
    None
}

fn first_unlisted_dif(values: &[Value]) -> Option<usize>
    ensures place { result ≡ position dif_has_unlisted (map view values.now) }
    ensures within { IfSome result (λ i. i < length values.now) }
{
    first_value_of_unlisted_dif(values)
}

/// The first item with a key that is not listed.
#[tactic(auto, unfolding(crate::specs::Keys::keys_fault))]
pub fn key_fault(stack: &Value) -> Result<Option<usize>, StackError>
    ensures read { Gives (λ f. f) result (Ok (keys_fault (view stack.now))) }
    ensures counted { IsOk result }
{
    if has_unlisted(Shape::Top, stack) {
        return Ok(Some(0));
    }
    let wires = items_at(stack, "wire");
    if let Some(at) = first_unlisted_wire(wires) {
        return Ok(Some(1 + at));
    }
    let difs = items_at(stack, "dif");
    let first = first_dif_item(wires.len(), difs.len())?;
    match first_unlisted_dif(difs) {
        Some(at) => Ok(Some(first + at)),
        None => Ok(None),
    }
}
