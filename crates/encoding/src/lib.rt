// Lists of numbers as bytes, eight to a number, and the groups of a scene that is lent so.
// Lent slices stay parameters: a struct of `&mut` fields would owe a ghost name for what each is left as.
#![tactic(auto)]

pub mod bytes;
pub mod groups;
