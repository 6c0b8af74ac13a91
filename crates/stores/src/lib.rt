// The stores of a run to its cells, and the first demand. There are only definitions and theorems here.
#![tactic(auto)]
