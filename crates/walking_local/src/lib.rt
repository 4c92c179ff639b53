#![tactic(auto)]

// Laws for walks of functions with a local array that they lend whole. No code.
