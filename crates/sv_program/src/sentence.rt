//! The sentence about a fault, around its key.

ghost use Rattle.std.specs.Prelude.{◌≡◌};
ghost use Rattle.sv_program.specs.Sentence as spec;

use sv_descriptor::FaultCode;

/// Returns the words before the key.
pub(crate) fn front(code: FaultCode) -> &'static str
    ensures { result.now ≡ spec.front code }
{
    match code {
        FaultCode::NotToml => "the text is no TOML",
        FaultCode::UnknownKey => "the key `",
        FaultCode::MissingKey => "the key `",
        FaultCode::WrongType => "the value of `",
        FaultCode::BadPattern => "the value of `",
        FaultCode::DuplicatePattern => "a pattern at `",
        FaultCode::UnknownServlet => "no servlet is declared by the name at `",
        FaultCode::UnknownFilter => "no filter is declared by the name at `",
        FaultCode::BothMethodLists => "methods are listed beside `",
        FaultCode::ReservedRole => "a role at `",
        FaultCode::BadTimeout => "the value of `",
        FaultCode::BadValue => "the value of `",
        FaultCode::DuplicateName => "the name at `",
        FaultCode::TooMany => "the value of `",
    }
}

/// Returns the words after the key.
pub(crate) fn back(code: FaultCode) -> &'static str
    ensures { result.now ≡ spec.back code }
{
    match code {
        FaultCode::NotToml => "",
        FaultCode::UnknownKey => "` is not known here",
        FaultCode::MissingKey => "` is missing",
        FaultCode::WrongType => "` is not ",
        FaultCode::BadPattern => "` is not a URL pattern",
        FaultCode::DuplicatePattern => "` was mapped before",
        FaultCode::UnknownServlet => "`",
        FaultCode::UnknownFilter => "`",
        FaultCode::BothMethodLists => "`",
        FaultCode::ReservedRole => "` is `*` or `**`, which have a meaning of their own",
        FaultCode::BadTimeout => "` is not ",
        FaultCode::BadValue => "` is not ",
        FaultCode::DuplicateName => "` was given before",
        FaultCode::TooMany => "` is not ",
    }
}
