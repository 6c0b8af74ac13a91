// The F* semantics as a definition, and the second demand. There are only definitions and theorems here.
#![tactic(auto)]
