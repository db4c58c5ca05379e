//! Tests of the algebra under the search, of its trail and of the search itself, at both bodies of their sets. The
//! search runs with a small guide, whose axioms all stand in the store from the start; with the product's, whose
//! vertices and axioms come as they are asked for, it runs in the sessions of `worked_cases`. Each function is proved
//! before it runs; all are compiled for the tests alone, so that they are proved once.
#![tactic(auto)]

#[cfg(test)]
mod both_bodies;
#[cfg(test)]
mod drawing;
#[cfg(test)]
mod generated;
#[cfg(test)]
mod made_stores;
#[cfg(test)]
mod made_terms;
#[cfg(test)]
mod pigeons;
#[cfg(test)]
mod preferring;
#[cfg(test)]
mod sets;
#[cfg(test)]
mod sizes;
#[cfg(test)]
mod stores;
#[cfg(test)]
mod trails;
#[cfg(test)]
mod trial;
#[cfg(test)]
mod worked;
