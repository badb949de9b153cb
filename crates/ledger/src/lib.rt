//! The ledger of a burst, runs of calls, and the promise that ties them: definitions, and their proof.
#![tactic(auto)]
