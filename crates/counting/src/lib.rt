// Numbers below a bound, and lists by number: no code, only the definitions and laws of specs/.
#![tactic(auto)]
