// Definitions and laws of needed gates, which compilers call live (specs/): the relation, preconditions, the one backward pass; gates as they lie in quads.
#![tactic(auto)]
