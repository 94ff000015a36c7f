//! Tests of the readers of configuration files and of scripts: what is read, which no command prints. The cases of the
//! commands `policy` and `replay` show what is refused.
#![tactic(auto)]

#[cfg(test)]
mod chains;
#[cfg(test)]
mod clock;
#[cfg(test)]
mod connections;
#[cfg(test)]
mod echo;
#[cfg(test)]
mod elements;
#[cfg(test)]
mod escapes;
#[cfg(test)]
mod file_answers;
#[cfg(test)]
mod file_lists;
#[cfg(test)]
mod lines;
#[cfg(test)]
mod locations;
#[cfg(test)]
mod pages;
#[cfg(test)]
mod passwords;
#[cfg(test)]
mod replays;
#[cfg(test)]
mod security;
#[cfg(test)]
mod settings;
#[cfg(test)]
mod stored_run;
#[cfg(test)]
mod stream_lines;
#[cfg(test)]
mod summary;
#[cfg(test)]
mod what_is_read;
#[cfg(test)]
mod writes;
