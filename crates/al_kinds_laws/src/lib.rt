//! Kinds: where integers are held in a run of a well-formed program. The laws of loops and of whole runs that rest on
//! them stand in `al_runs_laws`.
#![tactic(auto)]
