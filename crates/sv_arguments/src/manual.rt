//! The forms of the manual that `help` prints.

ghost use Rattle.std.specs.Prelude.{◌≡◌, [], ◌∷◌, map, string_bytes};
ghost use Rattle.sv_arguments.specs.Manual.{manual_words};
ghost use Rattle.sv_arguments.specs.Values.{Finds};

/// A manual.
#[derive(Clone, Copy)]
pub enum Manual {
    /// `--format man`: the commands, as the manual page sv.1.
    Commands,
    /// `--format md`: the commands, in Markdown.
    CommandsMarkdown,
    /// `--format bash`: the completion of bash.
    Completion,
    /// `config`: the keys of the configuration files.
    Keys,
    /// `config --format man`: the keys, as the manual page sv-config.5.
    KeysPage,
    /// `config --format md`: the keys, in Markdown.
    KeysMarkdown,
}

impl Manual {
    /// Returns the manual of the words after `help`, or none if they name none.
    pub fn named(words: &[String]) -> Option<Manual>
        ensures { Finds (λ manual. map string_bytes words.now ≡ manual_words manual) result }
    {
        let (first, rest) = words.split_first()?;
        let Some((second, rest)) = rest.split_first() else {
            return keys_alone(first.as_str());
        };
        let Some((third, rest)) = rest.split_first() else {
            return commands_in(first.as_str(), second.as_str());
        };
        if rest.is_empty() {
            keys_in(first.as_str(), second.as_str(), third.as_str())
        } else {
            None
        }
    }
}

fn keys_alone(word: &str) -> Option<Manual>
    ensures { Finds (λ manual. word.now ∷ [] ≡ manual_words manual) result }
{
    if word == "config" {
        Some(Manual::Keys)
    } else {
        None
    }
}

fn commands_in(option: &str, format: &str) -> Option<Manual>
    ensures { Finds (λ manual. option.now ∷ format.now ∷ [] ≡ manual_words manual) result }
{
    if option != "--format" {
        return None;
    }
    match format {
        "man" => Some(Manual::Commands),
        "md" => Some(Manual::CommandsMarkdown),
        "bash" => Some(Manual::Completion),
        _ => None,
    }
}

fn keys_in(word: &str, option: &str, format: &str) -> Option<Manual>
    ensures { Finds (λ manual. word.now ∷ option.now ∷ format.now ∷ [] ≡ manual_words manual) result }
{
    if word != "config" || option != "--format" {
        return None;
    }
    match format {
        "man" => Some(Manual::KeysPage),
        "md" => Some(Manual::KeysMarkdown),
        _ => None,
    }
}
