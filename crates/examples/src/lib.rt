//! What a user of the library writes, proved: callers with contracts of their own.
#![tactic(auto)]

pub mod action;
pub mod actions;
pub mod answers;
pub mod batches;
pub mod by_events;
pub mod command;
pub mod commands;
pub mod counter;
pub mod limits;
pub mod old_order;
pub mod order;
pub mod orders;
pub mod page;
pub mod pages;
pub mod rates;
pub mod readme;
pub mod reply;
pub mod service;
pub mod services;
pub mod tasks;
pub mod totals;
pub mod versions;
