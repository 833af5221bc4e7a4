// Runs of calls, and the theorems about them; no code.
#![tactic(auto)]
