//! Tests of single crates, one module for each crate. The tables of the modules have cases whose results were worked out by
//! hand or by a reference implementation.
#![tactic(auto)]

#[cfg(test)]
mod circuits;
#[cfg(test)]
mod encodings;
#[cfg(test)]
mod fractions;
#[cfg(test)]
mod lattice;
#[cfg(test)]
mod outside;
#[cfg(test)]
mod patterns;
#[cfg(test)]
mod simplex;
#[cfg(test)]
mod syntax;
#[cfg(test)]
mod tokens;
#[cfg(test)]
mod topologies;
#[cfg(test)]
mod values;
