// Curves through a common zero of their four polynomials: what is projected there. Definitions and laws;
// there is no code here.
#![tactic(auto)]
