//! Tests alone: calls of the libraries that no worked example of the whole tool shows, on programs and graphs made here.
#![tactic(auto)]

#[cfg(test)]
mod and;
#[cfg(test)]
mod batch;
#[cfg(test)]
mod debug;
#[cfg(test)]
mod graphs;
#[cfg(test)]
mod imply;
#[cfg(test)]
mod lanes;
#[cfg(test)]
mod life;
#[cfg(test)]
mod machine;
#[cfg(test)]
mod rewrite;
#[cfg(test)]
mod rm3;
#[cfg(test)]
mod vectors;
