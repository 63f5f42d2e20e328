// No code: specs/ states what the planner and the switch are sure of, and proofs/ shows it.
#![tactic(auto)]
