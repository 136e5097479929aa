//! What lists of lists in a byte format have in common: definitions and lemmas alone.
#![tactic(auto)]
