//! Whole runs: each example, and each worked row, with all that it writes. Tests alone.
#![tactic(auto)]

#[cfg(test)]
mod alloc_rows;
#[cfg(test)]
mod ask_refusals;
#[cfg(test)]
mod check_rows;
#[cfg(test)]
mod commands;
#[cfg(test)]
mod drawn;
#[cfg(test)]
mod ends;
#[cfg(test)]
mod enrol_refusals;
#[cfg(test)]
mod enrol_rows;
#[cfg(test)]
mod examples_a_to_d;
#[cfg(test)]
mod examples_e_to_g;
#[cfg(test)]
mod examples_h_to_l;
#[cfg(test)]
mod examples_m_to_q;
#[cfg(test)]
mod examples_r_to_s;
#[cfg(test)]
mod examples_t_to_z;
#[cfg(test)]
mod flat_rows;
#[cfg(test)]
mod id_rows;
#[cfg(test)]
mod kinds_rows;
#[cfg(test)]
mod member_rows;
#[cfg(test)]
mod own_policy;
#[cfg(test)]
mod running;
#[cfg(test)]
mod spent_rows;
#[cfg(test)]
mod storm_rows;
#[cfg(test)]
mod tall_rows;
#[cfg(test)]
mod wire_rows;
