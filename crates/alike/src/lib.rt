// Lists of whole numbers that one nonzero fraction takes into each other. Definitions and laws; there is no
// code here.
#![tactic(auto)]
