// Floats that are whole numbers: sums, differences and products of them are exact. Definitions and laws alone.
#![tactic(auto)]
