// Polar forms
#![tactic(auto)]
