//! Tests of operations and of passes over the nodes of a whole cluster; there is nothing else here.
#![tactic(auto)]

#[cfg(test)]
mod passes;
#[cfg(test)]
mod sizes;
