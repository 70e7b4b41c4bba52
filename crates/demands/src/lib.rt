// The three demands, and the theorems that speak of reader and master together. It has no code.
#![tactic(auto)]
