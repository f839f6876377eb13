// docs/SCOPE.md's measured pieces that are proved, as one list and one statement: definitions and a theorem alone.
#![tactic(auto)]
