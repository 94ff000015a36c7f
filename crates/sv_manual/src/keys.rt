//! The keys of the configuration files, in each form.

ghost use Rattle.std.specs.Prelude.{◌≡◌, ◌++◌, OnOk, map, string_bytes};
ghost use Rattle.sv_manual.specs.Keys as spec;
ghost use Rattle.sv_program.specs.Keys.{fields, row_fields};
ghost use Rattle.sv_text.specs.Gives.{GivesAnswer};

use crate::form::{Form, escaped};
use crate::pages::{
    CONFIG_MAN_END, CONFIG_MAN_HEAD, CONFIG_MARKDOWN_HEAD, KEY_MEANS, KEY_TABLE_HEAD, KEY_TAKES,
};
use std::alloc::Global;
use sv_program::{Format, KEYS, KeyDescription, KeyRow};
use sv_text::{NoMemory, Text};

/// Returns the keys of all configuration files in this form.
///
/// # Errors
/// `NoMemory` if memory runs out.
pub fn config_page(alloc: Global, form: Form) -> Result<Text, NoMemory>
    ensures { GivesAnswer result (spec.config_text form (map (row_fields (λ text. text.now)) KEYS)) }
{
    config_of(alloc, form, &KEYS)
}

fn config_of(alloc: Global, form: Form, rows: &[KeyRow]) -> Result<Text, NoMemory>
    ensures { GivesAnswer result (spec.config_text form (map (row_fields (λ text. text.now)) rows.now)) }
{
    let mut text = String::new(alloc);
    push_config(alloc, &mut text, form, rows)?;
    Ok(Text::from_string(text))
}

fn push_config(
    alloc: Global,
    text: &mut String,
    form: Form,
    rows: &[KeyRow],
) -> Result<(), NoMemory>
    ensures { OnOk result (string_bytes text.new ≡ string_bytes text.old ++ spec.config_text form (map (row_fields (λ text. text.now)) rows.now)) }
{
    text.push_str(config_head(form))?;
    push_format(alloc, text, form, rows, Format::Server)?;
    push_format(alloc, text, form, rows, Format::Descriptor)?;
    push_format(alloc, text, form, rows, Format::Users)?;
    text.push_str(config_end(form))?;
    Ok(())
}

fn config_head(form: Form) -> &'static str
    ensures { result.now ≡ spec.config_head form }
{
    match form {
        Form::Help => "",
        Form::Roff => CONFIG_MAN_HEAD,
        Form::Markdown => CONFIG_MARKDOWN_HEAD,
    }
}

fn config_end(form: Form) -> &'static str
    ensures { result.now ≡ spec.config_end form }
{
    match form {
        Form::Help => "",
        Form::Roff => CONFIG_MAN_END,
        Form::Markdown => "",
    }
}

/// Adds the keys of a format.
fn push_format(
    alloc: Global,
    text: &mut String,
    form: Form,
    rows: &[KeyRow],
    format: Format,
) -> Result<(), NoMemory>
    ensures { OnOk result (string_bytes text.new ≡ string_bytes text.old ++ spec.format_text form (map (row_fields (λ text. text.now)) rows.now) format) }
{
    push_format_head(text, form, format)?;
    push_keys(alloc, text, form, rows, format)
}

fn push_format_head(text: &mut String, form: Form, format: Format) -> Result<(), NoMemory>
    ensures { OnOk result (string_bytes text.new ≡ string_bytes text.old ++ spec.format_head form format) }
{
    let name = format_name(format);
    match form {
        Form::Help => push_around(text, "", name, ":\n"),
        Form::Roff => push_around(text, ".SH ", name, "\n"),
        Form::Markdown => push_around(text, "\n## ", name, KEY_TABLE_HEAD),
    }
}

fn format_name(format: Format) -> &'static str
    ensures { result.now ≡ spec.format_name format }
{
    match format {
        Format::Server => "Server file",
        Format::Descriptor => "Deployment descriptor",
        Format::Users => "Users file",
    }
}

/// Adds a text between two others.
fn push_around(text: &mut String, front: &str, middle: &str, back: &str) -> Result<(), NoMemory>
    ensures { OnOk result (string_bytes text.new ≡ string_bytes text.old ++ (front.now ++ middle.now ++ back.now)) }
{
    text.push_str(front)?;
    text.push_str(middle)?;
    text.push_str(back)?;
    Ok(())
}

fn push_keys(
    alloc: Global,
    text: &mut String,
    form: Form,
    rows: &[KeyRow],
    format: Format,
) -> Result<(), NoMemory>
    ensures { OnOk result (string_bytes text.new ≡ string_bytes text.old ++ spec.keys_text form (map (row_fields (λ text. text.now)) rows.now) format) }
{
    for row in rows {
        push_key(alloc, text, form, format, KeyDescription::of(row))?;
    }
    Ok(())
}

/// Adds a key, if it is one of this format.
fn push_key(
    alloc: Global,
    text: &mut String,
    form: Form,
    format: Format,
    key: KeyDescription,
) -> Result<(), NoMemory>
    ensures { OnOk result (string_bytes text.new ≡ string_bytes text.old ++ spec.key_of form format (fields key)) }
{
    if !are_same(format, key.format) {
        return Ok(());
    }
    let shown = shown_key(alloc, form, key)?;
    text.push_str(shown.as_str())?;
    Ok(())
}

fn are_same(format: Format, other: Format) -> bool
    ensures { result ≡ spec.are_same format other }
{
    match format {
        Format::Server => match other {
            Format::Server => true,
            Format::Descriptor => false,
            Format::Users => false,
        },
        Format::Descriptor => match other {
            Format::Server => false,
            Format::Descriptor => true,
            Format::Users => false,
        },
        Format::Users => match other {
            Format::Server => false,
            Format::Descriptor => false,
            Format::Users => true,
        },
    }
}

fn shown_key(alloc: Global, form: Form, key: KeyDescription) -> Result<Text, NoMemory>
    ensures { GivesAnswer result (spec.shown_key form (fields key)) }
{
    let path = key_path(alloc, key.table, key.key)?;
    match form {
        Form::Help => help_key(alloc, path.as_str(), key.takes, key.means),
        Form::Roff => roff_key(alloc, path.as_str(), key.takes, key.means),
        Form::Markdown => table_row(alloc, path.as_str(), key.takes, key.means),
    }
}

fn key_path(alloc: Global, table: &str, key: &str) -> Result<Text, NoMemory>
    ensures { GivesAnswer result (spec.key_path table.now key.now) }
{
    if table.is_empty() {
        Text::copy_of(alloc, key)
    } else {
        Ok(Text::from_string(format!(in alloc; "{table}.{key}")?))
    }
}

fn help_key(alloc: Global, path: &str, takes: &str, means: &str) -> Result<Text, NoMemory>
    ensures { GivesAnswer result (spec.help_key path.now takes.now means.now) }
{
    let (front, middle) = (KEY_TAKES, KEY_MEANS);
    Ok(Text::from_string(format!(in alloc; "    {path}{front}{takes}{middle}{means}\n")?))
}

fn roff_key(alloc: Global, path: &str, takes: &str, means: &str) -> Result<Text, NoMemory>
    ensures { GivesAnswer result (spec.roff_key path.now takes.now means.now) }
{
    let path = escaped(alloc, Form::Roff, path)?;
    let takes = escaped(alloc, Form::Roff, takes)?;
    let means = escaped(alloc, Form::Roff, means)?;
    let (path, takes, means) = (path.as_str(), takes.as_str(), means.as_str());
    Ok(Text::from_string(format!(in alloc; ".TP\n\\fB{path}\\fR\nTakes {takes}.\n\\&{means}\n")?))
}

fn table_row(alloc: Global, path: &str, takes: &str, means: &str) -> Result<Text, NoMemory>
    ensures { GivesAnswer result (spec.table_row path.now takes.now means.now) }
{
    Ok(Text::from_string(format!(in alloc; "| `{path}` | {takes} | {means} |\n")?))
}
