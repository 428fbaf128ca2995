//! The public calls of the crates that speak of networks, each once, on networks and values that were worked out by hand:
//! what no clause says. They stand in a crate of their own, since a crate with tests is proved twice.
//!
//! | File | Whose calls |
//! |---|---|
//! | `configurations`, `designs`, `samples` | `ios_reader`, `design_file`, `sample_network` |
//! | `prepared`, `applied` | `isis_writer`, `applied_changes` |
//! | `networks`, `zones`, `ospf_tables`, `isis_tables` | `net_model`, `zone_graph`, `ospf_routes`, `isis_routes` |
//! | `classes`, `mixtures`, `alike`, `faults` | `prefix_atoms`, `rib_mix`, `loop_finder` |
//! | `orders`, `waves`, `plans`, `trees` | `step_scripts`, `loop_finder`, `wave_oracle`, `refutation_check` |
#![tactic(auto)]

// Configurations and designs as texts.
#[cfg(test)]
mod applied;
#[cfg(test)]
mod configurations;
#[cfg(test)]
mod designs;
#[cfg(test)]
mod prepared;
#[cfg(test)]
mod samples;

// The network and its route tables.
#[cfg(test)]
mod isis_tables;
#[cfg(test)]
mod networks;
#[cfg(test)]
mod ospf_tables;
#[cfg(test)]
mod zones;

// Mixed forwarding and its faults.
#[cfg(test)]
mod alike;
#[cfg(test)]
mod classes;
#[cfg(test)]
mod faults;
#[cfg(test)]
mod mixtures;

// Orders, wave lists and plans.
#[cfg(test)]
mod orders;
#[cfg(test)]
mod plans;
#[cfg(test)]
mod trees;
#[cfg(test)]
mod waves;
