// Why a grade is what it is: definitions and theorems alone. A function that explains stands in a crate above this one.
#![tactic(auto)]
