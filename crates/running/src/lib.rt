// What a grade says of a run: definitions and theorems alone.
#![tactic(auto)]
