// One step of the machine in code, and a run: equal to the definition, step for step.
#![tactic(auto)]

pub mod control;
pub mod exec;
pub mod fetch;
pub mod run;
pub mod tasks;
pub mod transfer;
pub mod unmarked;
