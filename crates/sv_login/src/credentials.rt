//! The credentials of a login post.

ghost use Rattle.std.specs.Prelude.{◌≡◌};
ghost use Rattle.std.specs.Option.{option_copied};
ghost use Rattle.sv_text.specs.Gives.{GivesAnswer};
ghost use Rattle.sv_login.specs.Credentials.{credentials_in};
ghost use Rattle.sv_login.specs.Post.{user_of};
ghost use Rattle.sv_message.specs.Form.{form_parameters};
ghost use Rattle.sv_message.specs.Parameters.{parameters_of};

use crate::field_name::is_name;
use form_urlencoded::raw_pairs;
use std::alloc::Global;
use sv_message::{is_form, text_of};
use sv_realm::Realm;
use sv_text::{NoMemory, Text};

/// The name and the password that a login post sends (Jakarta Servlet 6.0, section 13.6.3.1). Either may be missing.
#[derive(Drop)]
pub struct Credentials {
    pub name: Option<Text>,
    pub password: Option<Text>,
}

impl Credentials {
    /// Returns the first `j_username` and the first `j_password` of a body. Both are missing if the body is not a form.
    pub fn of_body(
        alloc: Global,
        method: &str,
        content_type: Option<&[u8]>,
        body: &[u8],
    ) -> Result<Credentials, NoMemory>
        ensures { GivesAnswer result (credentials_in (form_parameters method.now (option_copied content_type.entry) body.now)) }
    {
        if !is_form(method, content_type) {
            return Ok(Credentials {
                name: None,
                password: None,
            });
        }
        Credentials::of_form(alloc, body)
    }

    /// Returns the first `j_username` and the first `j_password` of a form, in one pass that ends when both are found.
    /// Only their values are decoded.
    fn of_form(alloc: Global, form: &[u8]) -> Result<Credentials, NoMemory>
        ensures { GivesAnswer result (credentials_in (parameters_of form.now)) }
    {
        let mut name = None;
        let mut password = None;
        for (key, value) in raw_pairs(form) {
            if name.is_none() && is_name(key, "j_username") {
                name = Some(text_of(alloc, value)?);
            }
            if password.is_none() && is_name(key, "j_password") {
                password = Some(text_of(alloc, value)?);
            }
            if name.is_some() && password.is_some() {
                return Ok(Credentials { name, password });
            }
        }
        Ok(Credentials { name, password })
    }

    /// Returns the number of the user that the name and the password fit, or none if there is no such user. Also
    /// returns none if either is missing; an empty one is checked like any other.
    pub fn user(&self, realm: &Realm) -> Option<u32>
        ensures { result ≡ user_of realm.now self.now.name self.now.password }
    {
        let name = self.name.as_ref()?;
        let password = self.password.as_ref()?;
        let caller = realm.check(name.as_str(), password.as_bytes())?;
        Some(caller.number)
    }
}
