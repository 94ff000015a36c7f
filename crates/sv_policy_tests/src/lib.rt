//! Tests of patterns, users, constraints and logins: tables whose rows a reader can check against the specification.
#![tactic(auto)]

#[cfg(test)]
mod ample_memory;
#[cfg(test)]
mod best_matches;
#[cfg(test)]
mod calls;
#[cfg(test)]
mod cookies;
#[cfg(test)]
mod credentials;
#[cfg(test)]
mod edit_load;
#[cfg(test)]
mod edits;
#[cfg(test)]
mod expiry_load;
#[cfg(test)]
mod load;
#[cfg(test)]
mod logins;
#[cfg(test)]
mod numbered;
#[cfg(test)]
mod pattern_texts;
#[cfg(test)]
mod policies;
#[cfg(test)]
mod realm;
#[cfg(test)]
mod rows;
#[cfg(test)]
mod stores;
