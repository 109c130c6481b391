//! What the core answers: which operations are built, and what comes of a call. It has definitions alone.
#![tactic(auto)]
