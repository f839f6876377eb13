// What the predicates in whole numbers tell of the plane. Definitions and laws alone.
#![tactic(auto)]
