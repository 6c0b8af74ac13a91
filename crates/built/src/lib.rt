// No code: what calls to the builder build, and that each code can be built, as theorems.
#![tactic(auto)]
