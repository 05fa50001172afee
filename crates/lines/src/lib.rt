// Lines of text: numbers, octets and pieces read from one, and how octets and answers are written in one. Nothing here
// knows what the lines are about.
#![tactic(auto)]

pub mod numbers;
pub mod pieces;
pub mod print;
pub mod rows;
