// The theorems about struck messages: no function of its own.
#![tactic(auto)]
