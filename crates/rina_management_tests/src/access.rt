//! What a list of rules decides.
use rina_access::{Act, Decision, Rule, Rules, Subject};
use rina_base::{AppName, Memory, NameError, Seq};
use std::alloc::Global;

/// Adds a rule for an application.
fn add(
    alloc: Global,
    list: &mut Seq<Rule>,
    app: &AppName,
    act: Act,
    allow: bool,
) -> Result<(), Memory> {
    let subject = Subject::App(app.copy(alloc)?);
    list.push(Rule {
        subject,
        act,
        allow,
    })?;
    Ok(())
}

/// Adds a rule for all.
fn add_for_all(list: &mut Seq<Rule>, act: Act, allow: bool) -> Result<(), Memory> {
    list.push(Rule {
        subject: Subject::All,
        act,
        allow,
    })?;
    Ok(())
}

/// All but one application may allocate, and another one may enrol.
fn three_rules(alloc: Global, app: &AppName, other: &AppName) -> Result<Seq<Rule>, Memory> {
    let mut list = Seq::new(alloc);
    add(alloc, &mut list, app, Act::Allocate, false)?;
    add_for_all(&mut list, Act::Allocate, true)?;
    add(alloc, &mut list, other, Act::Enrol, true)?;
    Ok(list)
}

const fn no(rule: u32) -> Decision {
    Decision { allow: false, rule }
}

const fn yes(rule: u32) -> Decision {
    Decision { allow: true, rule }
}

/// Whether the first rule that matches decides, and none where none matches.
fn decide(rules: &Rules, app: &AppName, other: &AppName) -> bool {
    rules.decide(app, Act::Allocate) == no(1)
        && rules.decide(other, Act::Allocate) == yes(2)
        && rules.decide(other, Act::Enrol) == yes(3)
        && rules.decide(app, Act::Enrol) == no(0)
}

/// The name of an application, and that of an IPC process.
fn names(alloc: Global) -> Result<(AppName, AppName), NameError> {
    let app = AppName::read(alloc, b"app")?;
    Ok((app, AppName::read(alloc, b"dif/node")?))
}

/// Whether three rules decide so.
fn three_decide(alloc: Global, list: &[Rule], app: &AppName, other: &AppName) -> bool {
    if list.len() != 3 {
        return false;
    }
    match Rules::new(alloc, list, false) {
        Ok(rules) => decide(&rules, app, other),
        Err(Memory) => false,
    }
}

/// Whether each name is decided by the rules.
fn are_decided(alloc: Global, app: &AppName, ipc: &AppName) -> bool {
    match three_rules(alloc, app, ipc) {
        Ok(list) => three_decide(alloc, list.as_slice(), app, ipc),
        Err(Memory) => false,
    }
}

/// Whether the first rule that matches decides each name.
fn all_are_decided(alloc: Global) -> bool {
    match names(alloc) {
        Ok((app, ipc)) => are_decided(alloc, &app, &ipc),
        Err(_) => false,
    }
}

#[test]
fn the_first_rule_that_matches_decides(rt: HostRuntime) {
    assert!(rt; all_are_decided(rt.alloc()));
}
