// The kernels of document 01, P1 to P14, and its other worked examples. There are only definitions and claims here.
#![tactic(auto)]
