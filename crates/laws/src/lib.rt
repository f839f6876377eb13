// What several crates need and none owns: the first of the best, and laws of truths and of floats. Definitions and laws alone.
#![tactic(auto)]
