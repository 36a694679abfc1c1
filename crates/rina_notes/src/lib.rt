//! Names and notes: the numbers that the names in a line stand for, and what calls answered, as notes with the names of
//! the stack.
#![tactic(auto)]

mod facility;
mod label;
mod label_note;
mod line;
mod note;
mod refusal;
mod site;
mod state;
mod step;

pub use facility::{RankedFac, find_fac};
pub use label::{Label, Labels};
pub use label_note::{ends_at, state_at, tell_labels};
pub use line::Line;
pub use note::{refused, tell, tick_of};
pub use refusal::{
    tell_allocate, tell_app_send, tell_enrol, tell_free, tell_publish, tell_register,
    tell_unregister, tell_wire,
};
pub use site::{Site, find_dif_site, find_site};
pub use state::{tell_drawn, tell_member, tell_port, tell_state};
pub use step::{tell_cdap, tell_clock, tell_in, tell_object, tell_off, tell_out, tell_step};
