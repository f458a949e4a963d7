//! Tests alone: worked examples of the whole tool, as tables over sources and sinks in memory.
#![tactic(auto)]

#[cfg(test)]
mod aiger;
#[cfg(test)]
mod bench;
#[cfg(test)]
mod blif;
#[cfg(test)]
mod case;
#[cfg(test)]
mod compile;
#[cfg(test)]
mod debug;
#[cfg(test)]
mod imply;
#[cfg(test)]
mod outside;
#[cfg(test)]
mod programs;
#[cfg(test)]
mod prove;
#[cfg(test)]
mod run;
#[cfg(test)]
mod share;
