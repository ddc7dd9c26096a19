// Lines `key=value`, read from a text and written into a lent buffer. A value is a decimal number with no leading zero and a minus only
// before a number that is not 0, and the line is ended by LF.
// Text and position stay two parameters, as buffer and position do: contracts read `drop at text`, and a struct of both would be made
// anew at each position.
#![tactic(auto)]

pub mod read;
pub mod write;
