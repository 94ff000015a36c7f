//! A law on the descriptions of keys.

ghost use Rattle.std.specs.Prelude.{◌≡◌, ℕ, codes, false};
ghost use Rattle.sv_descriptor.specs.Collection.{collection};
ghost use Rattle.sv_descriptor.specs.Constraint.{auth_constraint, constraint, user_data_constraint};
ghost use Rattle.sv_descriptor.specs.CookieConfig.{cookie_config};
ghost use Rattle.sv_descriptor.specs.ErrorPage.{error_page};
ghost use Rattle.sv_descriptor.specs.Filter.{filter_entry, filter_mapping};
ghost use Rattle.sv_descriptor.specs.Listener.{listener};
ghost use Rattle.sv_descriptor.specs.Login.{form_login_config, login_config};
ghost use Rattle.sv_descriptor.specs.Names.{repeats};
ghost use Rattle.sv_descriptor.specs.Role.{security_role};
ghost use Rattle.sv_descriptor.specs.Server.{context, server};
ghost use Rattle.sv_descriptor.specs.Servlet.{servlet, servlet_mapping};
ghost use Rattle.sv_descriptor.specs.Session.{session_config};
ghost use Rattle.sv_descriptor.specs.Users.{user, users};
ghost use Rattle.sv_descriptor.specs.WebApp.{web_app};
ghost use Rattle.sv_descriptor.specs.WelcomeFile.{welcome_file_list};
ghost use Rattle.sv_descriptor.specs.declared.version.Version.TheVariants.{One, Two};
ghost use Rattle.sv_program.specs.KeyLaw.{AllAreDescribed, AllAreKnown, places};

/// Each key that a reader of a configuration file accepts has a description, unless it is ignored.
pub fn each_key_is_described()
    ensures server { AllAreDescribed (codes "") server }
    ensures context { AllAreDescribed (codes "context") context }
    ensures users { AllAreDescribed (codes "") users }
    ensures user { AllAreDescribed (codes "user") user }
    ensures descriptor { AllAreKnown (codes "") web_app }
    ensures servlet { AllAreKnown (codes "servlet") servlet }
    ensures servlet_mapping { AllAreKnown (codes "servlet-mapping") servlet_mapping }
    ensures filter { AllAreKnown (codes "filter") filter_entry }
    ensures filter_mapping { AllAreKnown (codes "filter-mapping") filter_mapping }
    ensures listener { AllAreKnown (codes "listener") listener }
    ensures session_1 { AllAreKnown (codes "session-config") (session_config One) }
    ensures session_2 { AllAreKnown (codes "session-config") (session_config Two) }
    ensures cookie { AllAreKnown (codes "cookie-config") cookie_config }
    ensures welcome_files { AllAreKnown (codes "welcome-file-list") welcome_file_list }
    ensures error_page { AllAreKnown (codes "error-page") error_page }
    ensures constraint { AllAreKnown (codes "security-constraint") constraint }
    ensures collection { (room : ℕ) → AllAreKnown (codes "web-resource-collection") (collection room) }
    ensures authorization { AllAreKnown (codes "auth-constraint") auth_constraint }
    ensures transport { AllAreKnown (codes "user-data-constraint") user_data_constraint }
    ensures role { AllAreKnown (codes "security-role") security_role }
    ensures login { AllAreKnown (codes "login-config") login_config }
    ensures form_login { AllAreKnown (codes "form-login-config") form_login_config }
{}

/// No key of a table is described twice.
pub fn no_key_is_described_twice()
    ensures { repeats places ≡ false }
{}
