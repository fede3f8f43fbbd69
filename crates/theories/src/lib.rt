//! Theories: what can be built and taken, asked of the rows of a case.
#![tactic(auto)]

mod by_row;
mod kind;
pub mod pile;
pub mod plain;
pub mod public_key;
pub mod reply;
pub mod standard;
mod takings;
pub mod theorems;
pub mod theory;

pub use pile::Pile;
pub use plain::Plain;
pub use public_key::PublicKey;
pub use reply::Reply;
pub use theory::Theory;
