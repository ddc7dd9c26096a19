// A plot held open while pupils build, in slices that the caller lends. specs/ has the plot, the clicks, and which slices are refused since
// no opening and clicks can leave them.
#![tactic(auto)]

pub mod clicks;
pub mod connections;
pub mod inspect;
pub mod writes;
