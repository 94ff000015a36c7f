//! The words of a cell.

/// A kind of words in a text.
#[derive(Clone, Copy)]
pub enum Words {
    /// URL patterns; `""` is the empty pattern.
    Patterns,
    /// Kinds of dispatches.
    Kinds,
    /// Words that are neither patterns nor kinds of dispatches.
    Servlets,
    All,
}

impl Words {
    /// Returns whether a word is of this kind.
    pub fn have(self, word: &str) -> bool {
        match self {
            Words::Patterns => is_pattern(word),
            Words::Kinds => is_kind(word),
            Words::Servlets => !is_pattern(word) && !is_kind(word),
            Words::All => true,
        }
    }

    /// Returns whether a text has a word of this kind.
    pub fn are_in(self, text: &str) -> bool {
        let mut found = false;
        for word in text.split_ascii_whitespace() {
            found = found || self.have(word);
        }
        found
    }
}

fn is_pattern(word: &str) -> bool {
    word == "\"\"" || word.starts_with("/") || word.starts_with("*.")
}

fn is_kind(word: &str) -> bool {
    matches!(word, "REQUEST" | "FORWARD" | "INCLUDE" | "ERROR")
}

/// Returns whether a part of a cell declares nothing.
pub fn is_nothing(part: &str) -> bool {
    part.is_empty() || part == "-"
}

/// Returns the first word of a text, and the rest.
pub fn first_word(text: &str) -> (&str, &str) {
    let (word, rest) = text.split_once(' ').unwrap_or((text, ""));
    (word, rest.trim_start())
}

/// Returns the number that a text gives, or 0 if it gives none.
pub fn number_of(text: &str) -> u64 {
    text.parse::<u64>().unwrap_or(0)
}
