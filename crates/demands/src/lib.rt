// The three demands, stated whole in one place and proved. There are only definitions and theorems here.
#![tactic(auto)]
