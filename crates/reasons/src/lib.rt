// Why nothing lay in between: what a reason is, and what it tells. Definitions and theorems alone.
#![tactic(auto)]
