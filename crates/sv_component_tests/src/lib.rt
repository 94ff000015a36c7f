//! Tests of the exchange and the parts of its request, of entries and of the component classes: tables whose rows a
//! reader can check against the standards.
#![tactic(auto)]

#[cfg(test)]
mod ample_memory;
#[cfg(test)]
mod calls;
#[cfg(test)]
mod changes;
#[cfg(test)]
mod classes;
#[cfg(test)]
mod entries;
#[cfg(test)]
mod entry_lines;
#[cfg(test)]
mod exchange_calls;
#[cfg(test)]
mod exchange_requests;
#[cfg(test)]
mod exchange_tables;
#[cfg(test)]
mod readings;
#[cfg(test)]
mod requests;
#[cfg(test)]
mod runs;
