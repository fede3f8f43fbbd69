//! A case: the terms of a vehicle network, each in a row of its own, and which of them are given.
#![tactic(auto)]

pub mod case;
pub mod parts;
pub mod row;
mod table;
pub mod theorems;

pub use case::{CAPACITY, Case};
pub use parts::parts_of;
pub use row::Row;
