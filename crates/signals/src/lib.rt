// What the port connections of a scene say of its components, stage by stage: edges by the port that they feed, inferred inputs, cyclic
// regions. Crate assessment goes on from there, and the entry that joins them is crate liveness.
// `Indices` stands at each stage that is lent labels: a struct for a graph with labels would be taken apart where these are gathered and
// spread by themselves.
// Lent slices stay parameters: a struct of `&mut` fields would owe a ghost name for what each is left as.
#![tactic(auto)]

pub mod edges;
pub mod flags;
pub mod inferred;
pub mod network;
pub mod stages;
