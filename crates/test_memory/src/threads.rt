//! Clients over memory that threads share: transfers that are left beside a hold of the lock, a transfer that ends beside a
//! command, and renames that are made beside one another.

mod ending;
mod leaving;
mod polled;
mod renames;
mod scene;
mod turns;
