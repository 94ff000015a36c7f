//! A text with the list of its bytes as its model.

ghost use Rattle.std.specs.Prelude.{IfOk, OnErr, OnOk, Some, [], string_bytes, ◌++◌, ◌≡◌};
ghost use Rattle.sv_text.specs.Gives.{GivesAnswer};

use crate::listed::Listed;
use crate::no_memory::NoMemory;
use arrayvec::ArrayString;
use std::alloc::Global;
use std::fmt;
use std::marker::Model;

/// The greatest length in bytes of a text that is stored in its value.
const SHORT_LEN: usize = 24;

/// A text in UTF-8. Contracts see the list of its bytes, so a struct with a `Text` field is plain data to them. A copy
/// of a short text takes no heap memory.
pub struct Text {
    inner: Inner,
}

/// The storage of the bytes of a text.
#[derive(Drop)]
enum Inner {
    /// In the value.
    Short(ArrayString<SHORT_LEN>),
    /// On the heap.
    Long(String),
}

impl Model for Text {
    ghost use Rattle.std.specs.Prelude.{ℕ, List};
    ghost use Rattle.sv_text.specs.Text.{bytes_of};

    ghost Value = { List ℕ };

    ghost view = { λ t. bytes_of t.inner };
}

impl Text {
    /// Wraps a string, without allocating memory.
    pub fn from_string(inner: String) -> Text
        ensures { result ≡ string_bytes inner }
    {
        Text {
            inner: Inner::Long(inner),
        }
    }

    /// Returns an empty text with capacity for this many bytes.
    pub fn with_room(alloc: Global, room: usize) -> Result<Text, NoMemory>
        ensures { GivesAnswer result [] }
    {
        let inner = if room <= SHORT_LEN {
            Inner::Short(ArrayString::new())
        } else {
            Inner::Long(String::with_capacity(alloc, room)?)
        };
        Ok(Text { inner })
    }

    /// Copies a text.
    pub fn copy_of(alloc: Global, text: &str) -> Result<Text, NoMemory>
        ensures { GivesAnswer result text.now }
    {
        match ArrayString::from(text) {
            Ok(short) => Ok(Text {
                inner: Inner::Short(short),
            }),
            Err(_) => Ok(Text {
                inner: Inner::Long(String::from_str(alloc, text)?),
            }),
        }
    }

    /// Appends a text. After [`NoMemory`] nothing has changed.
    #[inline(always)]
    pub fn push_str(&mut self, alloc: Global, text: &str) -> Result<(), NoMemory>
        ensures pushed { OnOk result (self.new ≡ self.old ++ text.now) }
        ensures refused { OnErr result (self.new ≡ self.old) }
    {
        match &mut self.inner {
            Inner::Short(short) => {
                if short.try_push_str(text).is_ok() {
                    return Ok(());
                }
            }
            Inner::Long(long) => {
                long.push_str(text)?;
                return Ok(());
            }
        }
        let long = joined(alloc, self.as_str(), text)?;
        self.inner = Inner::Long(long);
        Ok(())
    }

    /// Returns the text.
    pub fn as_str(&self) -> &str
        ensures { result.now ≡ self.now }
    {
        match &self.inner {
            Inner::Short(short) => short.as_str(),
            Inner::Long(long) => long.as_str(),
        }
    }

    /// Returns the bytes of the text.
    pub fn as_bytes(&self) -> &[u8]
        ensures { result.now ≡ self.now }
    {
        self.as_str().as_bytes()
    }
}

// Implemented by hand, so that types with texts in them drop each text by a call, wherever its bytes are stored.
impl Drop for Text {
    fn drop(self) {
        let Text { inner } = self;
        match inner {
            Inner::Short(_) => {}
            Inner::Long(text) => drop(text),
        }
    }
}

impl fmt::Debug for Text {
    fn fmt<W: fmt::Write>(&self, f: &mut fmt::Formatter<W>) -> fmt::Result {
        fmt::Debug::fmt(&self.as_str(), f)
    }
}

impl fmt::Display for Text {
    ghost output = { λ t. Some t };

    fn fmt<W: fmt::Write>(&self, f: &mut fmt::Formatter<W>) -> fmt::Result {
        f.write_str(self.as_str())
    }
}

// Returns both texts, the second after the first.
fn joined(alloc: Global, front: &str, back: &str) -> Result<String, NoMemory>
    ensures { IfOk result (λ text. string_bytes text ≡ front.now ++ back.now) }
{
    let mut text = String::with_capacity(alloc, front.len() + back.len())?;
    text.push_str(front)?;
    text.push_str(back)?;
    Ok(text)
}

/// Copies texts, in order.
pub fn copied_texts(alloc: Global, texts: &[Text]) -> Result<Listed<Text>, NoMemory>
    ensures { GivesAnswer result texts.now }
{
    let mut copies = Vec::with_capacity(alloc, texts.len())?;
    for text in texts {
        copies.push(Text::copy_of(alloc, text.as_str())?)?;
    }
    Ok(Listed::from_vec(copies))
}
