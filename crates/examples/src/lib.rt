// Closed examples: document 01's marked ones, one at least of each call, and that no constant answer meets a contract. No code.
#![tactic(auto)]
