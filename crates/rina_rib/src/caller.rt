//! Who asks for an operation.
ghost use Rattle.std.specs.Prelude.{◌≡◌};
ghost use Rattle.rina_rib.specs.Rows.{is_foreign, is_outside, is_own, is_cdap};

use crate::names::{is_at_or_under, is_under};
use rina_base::Class;

/// Who asks for an operation: the member itself, or a CDAP message.
#[derive(Clone, Copy, Debug, PartialEq, Eq)]
pub enum Caller {
    Own,
    /// It may change what is under `/user`, and no cubes and flows.
    Cdap,
}

fn is_cdap_caller(by: Caller) -> bool
    ensures { result ≡ is_cdap by }
{
    match by {
        Caller::Own => false,
        Caller::Cdap => true,
    }
}

/// Whether a caller may not make and delete an object of a name.
#[tactic(auto, unfolding(crate::specs::Rows::is_foreign))]
pub(crate) fn is_foreign_to(by: Caller, name: &[u8]) -> bool
    ensures { result ≡ is_foreign by name.now }
{
    is_cdap_caller(by) && !is_under(b"/user".as_slice(), name)
}

/// Whether a caller may not write, start and stop an object of a name.
#[tactic(auto, unfolding(crate::specs::Rows::is_outside))]
pub(crate) fn is_outside_of(by: Caller, name: &[u8]) -> bool
    ensures { result ≡ is_outside by name.now }
{
    is_cdap_caller(by) && !is_at_or_under(b"/user".as_slice(), name)
}

/// Whether a caller may not make an object of a class.
#[tactic(auto, unfolding(crate::specs::Rows::is_own))]
pub(crate) fn is_own_of(by: Caller, class: Class) -> bool
    ensures { result ≡ is_own by class }
{
    is_cdap_caller(by) && matches!(class, Class::Cube | Class::Flow)
}
