// The input that the programs share that take a pair of polygons: three words and a book. Definitions and laws alone.
#![tactic(auto)]
