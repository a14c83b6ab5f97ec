// Promises over all sessions: theorems alone, no code. docs/THEOREMS.md says which demand each carries.
#![tactic(auto)]
