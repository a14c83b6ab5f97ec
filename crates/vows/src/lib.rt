// Promises over sessions by windows, request W2: theorems alone, no code. docs/THEOREMS.md says which demand each carries.
#![tactic(auto)]
