// Which connections of a scene are kept, the ports that each takes at its ends, and why the others are left out.
// `k < connection_count` stands at each method that takes a place: it is a number, and the list is the scene's. The kind of a connection
// stays a number: what is selected by it answers for every number.
// Lent slices stay parameters: a struct of `&mut` fields would owe a ghost name for what each is left as.
#![tactic(auto)]

pub mod connections;
pub mod reasons;
