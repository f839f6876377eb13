// The float rules on whole coordinates, as rules about whole numbers. Definitions and laws alone.
#![tactic(auto)]
