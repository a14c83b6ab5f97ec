// Sessions by windows, request W2: what they are stands in specs/, and what holds of them in proofs/. The code is in `tap`.
#![tactic(auto)]
