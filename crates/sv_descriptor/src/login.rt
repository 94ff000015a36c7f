//! The login configuration.

ghost use Rattle.sv_descriptor.specs.Login as spec;

use crate::fault::{FaultCode, LocatedReadFault, refuse};
use crate::ignored_keys::element_keys;
use crate::location::{Location, PageLocation};
use crate::schema::required;
use crate::table::{TableOf, TableSchema};
use crate::text::{TextOf, TextSchema};
use std::alloc::Global;
use toml::Table;

/// Form based authentication (`login-config`, Jakarta Servlet 6.0 section 13.6.3).
#[derive(Drop)]
pub struct FormLogin {
    /// The path of the page with the login form, within the context.
    pub login_page: Location,
    /// The path of the page for a failed login, within the context.
    pub error_page: Location,
}

/// The table of a login configuration.
#[derive(Clone, Copy)]
pub struct LoginTable;

impl TableSchema for LoginTable {
    type Output = FormLogin;

    ghost reads = { λ _. spec.login_config };

    fn read(&self, alloc: Global, table: &Table) -> Result<FormLogin, LocatedReadFault> {
        element_keys(alloc, &["auth-method", "form-login-config"], table)?;
        required(alloc, table, "auth-method", &TextOf(AuthMethod))?;
        required(alloc, table, "form-login-config", &TableOf(FormLoginTable))
    }
}

/// The table of the two pages.
#[derive(Clone, Copy)]
struct FormLoginTable;

impl TableSchema for FormLoginTable {
    type Output = FormLogin;

    ghost reads = { λ _. spec.form_login_config };

    fn read(&self, alloc: Global, table: &Table) -> Result<FormLogin, LocatedReadFault> {
        element_keys(alloc, &["form-login-page", "form-error-page"], table)?;
        Ok(FormLogin {
            login_page: required(alloc, table, "form-login-page", &TextOf(PageLocation))?,
            error_page: required(alloc, table, "form-error-page", &TextOf(PageLocation))?,
        })
    }
}

/// The name of the only authentication method, `FORM`.
#[derive(Clone, Copy)]
struct AuthMethod;

impl TextSchema for AuthMethod {
    type Output = ();

    ghost reads = { λ _. spec.auth_method };

    fn read(&self, alloc: Global, key: &str, text: &str) -> Result<(), LocatedReadFault> {
        if text != "FORM" {
            return refuse(alloc, FaultCode::BadValue, key);
        }
        Ok(())
    }
}
