//! What the walks that start at a book's rows give, as definitions.
#![tactic(auto)]
