// The arithmetic of grades and of held sets, below everything else.
#![tactic(auto)]

pub mod access;
pub mod arithmetic;
pub mod held;
