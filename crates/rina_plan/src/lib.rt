//! The DIFs of a stack with names resolved, and the rules that they keep (rules 9 to 19).
#![tactic(auto)]

mod counts;
mod dif;
mod difs;
mod joined;
mod links;
mod nets;
mod numbers;
mod once;

pub use counts::{first_full, first_loaded};
pub use dif::{DifPlan, EndPlan, FlowPlan, LinkPlan, Lower, MemberPlan, WireEnds};
pub use difs::{first_mistimed, first_oversized, first_with_unfit_pdu, first_without_lower};
pub use joined::first_unjoined;
pub use links::{first_misused, first_uncarried, first_with_unfit_link};
pub use nets::are_joined;
pub use numbers::{facility_number, number_in_rank};
pub use once::{first_misplaced, first_without_cubes};
