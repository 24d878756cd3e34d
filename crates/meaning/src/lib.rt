// What the grades are: definitions and theorems alone. Its specs/ say what a node means, what the lowest tables are and what is
// answered; a function that grades stands in a crate above this one.
#![tactic(auto)]
