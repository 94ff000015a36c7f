//! Users of a realm, and the caller that a login gives (Jakarta Servlet 6.0 sections 13.3, 13.5 and 13.6).
#![tactic(auto)]

mod account;
mod caller;
mod laws;
mod password;
mod realm;

pub use account::{Account, User};
pub use caller::Caller;
pub use laws::{
    a_checked_caller_is_the_named_one, a_digest_that_fits_is_whole, limits_are_as_stated,
    the_first_user_of_a_name_counts,
};
pub use password::same_bytes;
pub use realm::{MAX_USERS, Realm};
