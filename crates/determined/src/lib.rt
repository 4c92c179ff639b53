#![tactic(auto)]

// What it means that the contract of a function determines what a call leaves, where the checker gives the contract no plain reading. No code.
