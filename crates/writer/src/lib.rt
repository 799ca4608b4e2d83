// Writing a line of output.
#![tactic(auto)]

pub mod inner;
