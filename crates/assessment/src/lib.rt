// Drive sources, source rows and verdict rows of a scene whose regions are known, and what is upstream of each region.
// Bounds of places and of lent slices stand at each function that takes them: a list, a place and a slice are lent apart.
// That the components ascend stands at the four functions that search them for a position. No struct holds it: the checks show it after a
// list has become a `ComponentList`, and one more for a single search would be no shorter. Marks of members stay slices of their own, as
// they are lent.
#![tactic(auto)]

pub mod slots;
pub mod sources;
pub mod upstream;
pub mod verdicts;
