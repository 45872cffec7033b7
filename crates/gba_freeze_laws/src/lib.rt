#![tactic(auto)]
//! What the run of a job reaches can be frozen, and what is thawed of it runs on as the job does.

pub mod laws;
