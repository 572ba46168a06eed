// The exponential series, the ends of the raw weight and the decay table's rule, as 01 and 02 state them, with their laws: definitions and proofs alone, and no
// function. `formula` has the functions that are held to them.
#![tactic(auto)]
