//! Cases of metamodels and diagrams: calls with values from outside, where memory is there.
#![tactic(auto)]

#[cfg(test)]
mod diagram;
#[cfg(test)]
mod metamodel;
