// The order of a net's entries, frames, and what the entries of a net fix: definitions and laws. There is no code here.
#![tactic(auto)]
