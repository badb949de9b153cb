//! A table as far as it is known: what a section brings to it, when it turns one away, and what it then holds. Definitions and
//! laws, for receiver and ledger alike.
#![tactic(auto)]
