//! Each public call once by its name, with what it answers: what a caller of the libraries writes. Those of the algebra
//! under the search are in `search_tests`; what runs show is shown by `worked_cases`.
#![tactic(auto)]

#[cfg(test)]
mod encodings;
#[cfg(test)]
mod failing;
#[cfg(test)]
mod lines;
#[cfg(test)]
mod loading;
#[cfg(test)]
mod names;
#[cfg(test)]
mod problems;
#[cfg(test)]
mod solving;
