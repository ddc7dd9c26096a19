// The refusals of the entries: what each check of the lists says, in the paper's order. `0 < width` stands at each check: the second list
// has one of two widths. So does the room for keys: an array in place of the slice would turn callers away that lend longer ones.
#![tactic(auto)]

pub mod numbered;
pub mod ranges;
pub mod refusals;
