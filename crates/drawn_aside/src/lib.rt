// What is found of a disc put aside on the grid, and what that tells of the floats that were drawn. Definitions and theorems alone.
#![tactic(auto)]
