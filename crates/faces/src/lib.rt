// Faces and ports: what each component has, and which of them a connection takes.
#![tactic(auto)]

pub mod face;
pub mod ports;
pub mod select;
pub mod step;
