//! A worker that has read what its plan asked for always has a next ask. There is no call here: these are claims on rows and answers.
#![tactic(auto)]

mod asks;

pub use asks::{commits_keep_order, workers_go_on};
