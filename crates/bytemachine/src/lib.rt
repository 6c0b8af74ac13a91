// The byte machine as a definition, and the third demand. There are only definitions and theorems here.
#![tactic(auto)]
