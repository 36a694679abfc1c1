//! Rules, and what they decide.
ghost use Rattle.std.specs.Prelude.{◌≡◌, ◌<◌, ◌≤◌, length, position, IfOk, IfSome};
ghost use Rattle.rina_access.specs.Access.{matches_rule};

use rina_base::{AppName, Memory, Seq};
use std::alloc::Global;

/// What is asked for.
#[derive(Clone, Copy, Debug, PartialEq, Eq)]
pub enum Act {
    /// A flow to an application.
    Allocate,
    /// Membership of the DIF.
    Enrol,
}

/// Whom a rule speaks of.
#[derive(Drop)]
pub enum Subject {
    /// Everyone, written `*`.
    All,
    /// One application, or one IPC process.
    App(AppName),
}

/// A rule: whether an act of its subject is allowed.
#[derive(Drop)]
pub struct Rule {
    pub subject: Subject,
    pub act: Act,
    pub allow: bool,
}

/// An ordered list of rules, and what holds where none matches.
#[derive(Drop)]
pub struct Rules {
    /// The rules, at most 256, tried from the first on.
    pub rules: Seq<Rule>,
    /// Whether an act is allowed that no rule speaks of.
    pub default: bool,
    pub ghost few: { length rules ≤ 256 },
}

/// What the rules say, and the number of the rule that says it, from 1; 0 is the default.
#[derive(Clone, Copy, Debug, PartialEq, Eq)]
pub struct Decision {
    pub allow: bool,
    pub rule: u32,
}

impl Subject {
    /// A copy.
    pub fn copy(&self, alloc: Global) -> Result<Subject, Memory>
        ensures { IfOk result (λ s. s ≡ self.now) }
    {
        match self {
            Subject::All => Ok(Subject::All),
            Subject::App(name) => Ok(Subject::App(name.copy(alloc)?)),
        }
    }
}

impl Rule {
    /// A copy.
    pub fn copy(&self, alloc: Global) -> Result<Rule, Memory>
        ensures { IfOk result (λ r. r ≡ self.now) }
    {
        let subject = self.subject.copy(alloc)?;
        Ok(Rule {
            subject,
            act: self.act,
            allow: self.allow,
        })
    }
}

/// Copies of rules, in their order.
fn copies(alloc: Global, rules: &[Rule]) -> Result<Seq<Rule>, Memory>
    ensures { IfOk result (λ rs. rs ≡ rules.now) }
{
    let mut copied = Seq::new(alloc);
    for rule in rules {
        copied.push(rule.copy(alloc)?)?;
    }
    Ok(copied)
}

/// Whether a rule speaks of this act of this subject.
#[tactic(auto, unfolding(crate::specs::Access::matches_rule))]
fn speaks_of(rule: &Rule, subject: &AppName, act: Act) -> bool
    ensures { result ≡ matches_rule subject.now act rule.now }
{
    let is_subject = match &rule.subject {
        Subject::All => true,
        Subject::App(name) => name.is(subject),
    };
    is_subject && rule.act == act
}

/// The place of the first rule that speaks of this act of this subject.
fn first_of(rules: &[Rule], subject: &AppName, act: Act) -> Option<usize>
    ensures place { result ≡ position (matches_rule subject.now act) rules.now }
    ensures within { IfSome result (λ k. k < length rules.now) }
{
    rules.iter().position(|rule| speaks_of(rule, subject, act))
}

impl Rules {
    ghost use Rattle.rina_access.specs.Access.{decided};

    /// Copies the rules.
    pub fn new(alloc: Global, rules: &[Rule], default: bool) -> Result<Rules, Memory>
        requires { length rules.now ≤ 256 }
        ensures listed { IfOk result (λ r. r.rules ≡ rules.now) }
        ensures otherwise { IfOk result (λ r. r.default ≡ default) }
    {
        let rules = copies(alloc, rules)?;
        Ok(Rules { rules, default })
    }

    /// A copy: the same rules in their order, and the same default.
    pub fn copy(&self, alloc: Global) -> Result<Rules, Memory>
        ensures { IfOk result (λ r. r ≡ self.now) }
    {
        let rules = copies(alloc, self.rules.as_slice())?;
        Ok(Rules {
            rules,
            default: self.default,
        })
    }

    /// What the first rule says that speaks of this act of this subject, else the default. Takes no
    /// memory.
    #[tactic(auto, unfolding(crate::specs::Access::decided))]
    pub fn decide(&self, subject: &AppName, act: Act) -> Decision
        ensures { result ≡ decided self.now.rules self.now.default subject.now act }
    {
        match first_of(self.rules.as_slice(), subject, act) {
            Some(at) => Decision {
                allow: self.rules.as_slice()[at].allow,
                rule: at as u32 + 1,
            },
            None => Decision {
                allow: self.default,
                rule: 0,
            },
        }
    }
}
