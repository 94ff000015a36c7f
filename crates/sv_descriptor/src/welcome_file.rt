//! Welcome files.

ghost use Rattle.std.specs.Prelude.{◌≡◌};
ghost use Rattle.sv_descriptor.specs.WelcomeFile as spec;

use crate::fault::{FaultCode, LocatedReadFault, refuse};
use crate::ignored_keys::element_keys;
use crate::limits::MAX_LIST_ITEMS;
use crate::list::ListOf;
use crate::schema::required;
use crate::table::TableSchema;
use crate::text::{TextOf, TextSchema};
use std::alloc::Global;
use sv_text::{Listed, Text};
use toml::Table;

/// The table of welcome files.
#[derive(Clone, Copy)]
pub struct WelcomeFileTable;

impl TableSchema for WelcomeFileTable {
    type Output = Listed<Text>;

    ghost reads = { λ _. spec.welcome_file_list };

    fn read(&self, alloc: Global, table: &Table) -> Result<Listed<Text>, LocatedReadFault> {
        element_keys(alloc, &["welcome-file"], table)?;
        let files = ListOf {
            least: 0,
            most: MAX_LIST_ITEMS,
            item: TextOf(WelcomeFile),
        };
        required(alloc, table, "welcome-file", &files)
    }
}

/// The partial path of a welcome file.
#[derive(Clone, Copy)]
struct WelcomeFile;

impl TextSchema for WelcomeFile {
    type Output = Text;

    ghost reads = { λ _. spec.welcome_file };

    fn read(&self, alloc: Global, key: &str, text: &str) -> Result<Text, LocatedReadFault> {
        if is_no_partial_path(text) {
            return refuse(alloc, FaultCode::BadValue, key);
        }
        Ok(Text::copy_of(alloc, text)?)
    }
}

#[tactic(auto, unfolding(crate::specs::WelcomeFile::is_no_partial_path))]
fn is_no_partial_path(text: &str) -> bool
    ensures { result ≡ spec.is_no_partial_path text.now }
{
    text.is_empty() || text.starts_with('/') || text.ends_with('/')
}
