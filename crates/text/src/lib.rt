// Definitions of the text of ARIs, and the theorems about them.
#![tactic(auto)]
