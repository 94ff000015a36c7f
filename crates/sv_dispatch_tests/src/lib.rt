//! Tests of starts, calls by index, stops and dispatches: tables whose rows a reader can check against the
//! specification.
#![tactic(auto)]

#[cfg(test)]
mod answers;
#[cfg(test)]
mod by_place;
#[cfg(test)]
mod chains;
#[cfg(test)]
mod components;
#[cfg(test)]
mod contexts;
#[cfg(test)]
mod descriptors;
#[cfg(test)]
mod entries;
#[cfg(test)]
mod lifecycle_components;
#[cfg(test)]
mod lifecycle_descriptors;
#[cfg(test)]
mod lives;
#[cfg(test)]
mod nesting;
#[cfg(test)]
mod pages;
#[cfg(test)]
mod requests;
#[cfg(test)]
mod results;
#[cfg(test)]
mod rows;
#[cfg(test)]
mod scripts;
#[cfg(test)]
mod sessions;
#[cfg(test)]
mod starts;
#[cfg(test)]
mod told;
#[cfg(test)]
mod words;
