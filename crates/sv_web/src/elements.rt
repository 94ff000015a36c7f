//! Elements of a deployment descriptor as text.

ghost use Rattle.std.specs.Prelude.{◌≡◌, ◌++◌, OnOk, codes, encode_utf8_all, string_bytes};
ghost use Rattle.std.specs.List.{flat_map};
ghost use Rattle.sv_web.specs.Elements as spec;

use sv_text::NoMemory;

/// Adds elements unchanged, and a line feed.
pub(crate) fn push_elements(descriptor: &mut String, elements: &str) -> Result<(), NoMemory>
    ensures { OnOk result (string_bytes descriptor.new ≡ string_bytes descriptor.old ++ elements.now ++ codes "\n") }
{
    descriptor.push_str(elements)?;
    descriptor.push_str("\n")?;
    Ok(())
}

/// Adds a servlet with its name as class, and its patterns.
pub(crate) fn push_servlet(
    descriptor: &mut String,
    name: &str,
    patterns: &[&str],
) -> Result<(), NoMemory>
    ensures { OnOk result (string_bytes descriptor.new ≡ string_bytes descriptor.old ++ spec.servlet_elements name.now patterns.now) }
{
    push_named(
        descriptor,
        "[[servlet]]\n",
        "servlet-name",
        "servlet-class",
        name,
    )?;
    push_mapping(
        descriptor,
        "[[servlet-mapping]]\n",
        "servlet-name",
        name,
        patterns,
    )?;
    Ok(())
}

/// Adds a filter with its name as class, and its patterns.
pub(crate) fn push_filter(
    descriptor: &mut String,
    name: &str,
    patterns: &[&str],
) -> Result<(), NoMemory>
    ensures { OnOk result (string_bytes descriptor.new ≡ string_bytes descriptor.old ++ spec.filter_elements name.now patterns.now) }
{
    push_named(
        descriptor,
        "[[filter]]\n",
        "filter-name",
        "filter-class",
        name,
    )?;
    push_mapping(
        descriptor,
        "[[filter-mapping]]\n",
        "filter-name",
        name,
        patterns,
    )?;
    Ok(())
}

/// Adds a listener, whose class is a fixed word.
pub(crate) fn push_listener(descriptor: &mut String) -> Result<(), NoMemory>
    ensures { OnOk result (string_bytes descriptor.new ≡ string_bytes descriptor.old ++ spec.listener_elements) }
{
    push_class(descriptor, "[[listener]]\n", "listener-class", "listener")?;
    Ok(())
}

// Adds an element with a class.
#[tactic(auto, unfolding(crate::specs::Elements::class_element))]
fn push_class(descriptor: &mut String, header: &str, key: &str, class: &str) -> Result<(), NoMemory>
    ensures { OnOk result (string_bytes descriptor.new ≡ string_bytes descriptor.old ++ spec.class_element header.now key.now class.now) }
{
    descriptor.push_str(header)?;
    push_text(descriptor, key, class)?;
    Ok(())
}

// Adds an element with a name, and a class that has the name.
#[tactic(auto, unfolding(crate::specs::Elements::named_element))]
fn push_named(
    descriptor: &mut String,
    header: &str,
    name_key: &str,
    class_key: &str,
    name: &str,
) -> Result<(), NoMemory>
    ensures { OnOk result (string_bytes descriptor.new
        ≡ string_bytes descriptor.old ++ spec.named_element header.now name_key.now class_key.now name.now) }
{
    descriptor.push_str(header)?;
    push_text(descriptor, name_key, name)?;
    push_text(descriptor, class_key, name)?;
    Ok(())
}

// Adds the URL patterns of a name.
#[tactic(auto, unfolding(crate::specs::Elements::mapping_element))]
fn push_mapping(
    descriptor: &mut String,
    header: &str,
    name_key: &str,
    name: &str,
    patterns: &[&str],
) -> Result<(), NoMemory>
    ensures { OnOk result (string_bytes descriptor.new
        ≡ string_bytes descriptor.old ++ spec.mapping_element header.now name_key.now name.now patterns.now) }
{
    descriptor.push_str(header)?;
    push_text(descriptor, name_key, name)?;
    push_list(descriptor, "url-pattern", patterns)?;
    Ok(())
}

// Adds a key with a text.
#[tactic(auto, unfolding(crate::specs::Elements::text_line))]
fn push_text(descriptor: &mut String, key: &str, text: &str) -> Result<(), NoMemory>
    ensures { OnOk result (string_bytes descriptor.new ≡ string_bytes descriptor.old ++ spec.text_line key.now text.now) }
{
    descriptor.push_str(key)?;
    descriptor.push_str(" = \"")?;
    push_quoted(descriptor, text)?;
    descriptor.push_str("\"\n")?;
    Ok(())
}

// Adds a key with a list of texts.
#[tactic(auto, unfolding(crate::specs::Elements::list_line))]
fn push_list(descriptor: &mut String, key: &str, texts: &[&str]) -> Result<(), NoMemory>
    ensures { OnOk result (string_bytes descriptor.new ≡ string_bytes descriptor.old ++ spec.list_line key.now texts.now) }
{
    descriptor.push_str(key)?;
    descriptor.push_str(" = [")?;
    push_items(descriptor, texts)?;
    descriptor.push_str("]\n")?;
    Ok(())
}

fn push_items(descriptor: &mut String, texts: &[&str]) -> Result<(), NoMemory>
    ensures { OnOk result (string_bytes descriptor.new ≡ string_bytes descriptor.old ++ flat_map (λ text. spec.list_item text.now) texts.now) }
{
    for text in texts {
        push_item(descriptor, text)?;
    }
    Ok(())
}

fn push_item(descriptor: &mut String, text: &str) -> Result<(), NoMemory>
    ensures { OnOk result (string_bytes descriptor.new ≡ string_bytes descriptor.old ++ spec.list_item text.now) }
{
    descriptor.push_str("\"")?;
    push_quoted(descriptor, text)?;
    descriptor.push_str("\", ")?;
    Ok(())
}

// Adds a text as it is between the quotes of a basic string.
fn push_quoted(descriptor: &mut String, text: &str) -> Result<(), NoMemory>
    ensures { OnOk result (string_bytes descriptor.new ≡ string_bytes descriptor.old ++ spec.quoted text.now) }
{
    for c in text.chars() {
        push_char(descriptor, c)?;
    }
    Ok(())
}

// Adds a character as a basic string writes it.
fn push_char(descriptor: &mut String, c: char) -> Result<(), NoMemory>
    ensures { OnOk result (string_bytes descriptor.new ≡ string_bytes descriptor.old ++ encode_utf8_all (spec.quoted_char c)) }
{
    match c {
        '"' => descriptor.push_str("\\\"")?,
        '\\' => descriptor.push_str("\\\\")?,
        '\n' => descriptor.push_str("\\n")?,
        '\r' => descriptor.push_str("\\r")?,
        _ => descriptor.push(c)?,
    }
    Ok(())
}
