// Add and remove jobs, by value: the numbers that a job may have, new jobs, where the answer to a
// request leads a job, and whether a job has ended.

#![tactic(auto)]

pub mod answer;
pub mod ended;
pub mod fresh;
pub mod job;
pub mod stage;
