//! What `bench` writes: an adder is compiled three times, and each program is tried on random rows.
#![tactic(auto)]

mod compiled;
mod measuring;
mod trial;

pub use measuring::measured;
