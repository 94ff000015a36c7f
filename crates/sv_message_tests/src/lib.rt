//! Tests of canonical paths, of messages, and of the items for authors: tables whose rows a reader can check against the
//! standards.
#![tactic(auto)]

#[cfg(test)]
mod ample_memory;
#[cfg(test)]
mod calls;
#[cfg(test)]
mod canonical_paths;
#[cfg(test)]
mod chunked_bodies;
#[cfg(test)]
mod counts;
#[cfg(test)]
mod message_limits;
#[cfg(test)]
mod path_rows;
#[cfg(test)]
mod reading;
#[cfg(test)]
mod requests;
#[cfg(test)]
mod response_texts;
#[cfg(test)]
mod responses;
#[cfg(test)]
mod segments;
#[cfg(test)]
mod specification_table;
#[cfg(test)]
mod steps;
#[cfg(test)]
mod streams;
#[cfg(test)]
mod tables;
#[cfg(test)]
mod targets;
#[cfg(test)]
mod whole_messages;
#[cfg(test)]
mod wire_items;
