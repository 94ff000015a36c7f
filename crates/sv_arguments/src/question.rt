//! The arguments of the command `policy`.

ghost use Rattle.std.specs.Prelude.{map, string_bytes};
ghost use Rattle.sv_arguments.specs.Question.{question_words};
ghost use Rattle.sv_program.specs.Arguments.{Names, optional_words};

/// A request, its user, and the server that receives it.
#[derive(Clone, Copy)]
pub struct Question<'a> {
    /// The name of the server file.
    pub config: &'a str,
    /// The request's method.
    pub method: &'a str,
    /// The request's target.
    pub target: &'a str,
    /// The name of the user that sends it, or none for a request without a caller.
    pub user: Option<&'a str>,
}

impl<'a> Question<'a> {
    /// Parses the arguments `CONFIG METHOD TARGET [USER]`. Returns none if there are too few or too many.
    pub fn parse(arguments: &'a [String]) -> Option<Question<'a>>
        ensures { Names question_words (map string_bytes arguments.now) result }
    {
        let (config, rest) = arguments.split_first()?;
        let (method, rest) = rest.split_first()?;
        let (target, rest) = rest.split_first()?;
        let user = user_in(rest)?;
        Some(Question {
            config: config.as_str(),
            method: method.as_str(),
            target: target.as_str(),
            user,
        })
    }
}

/// Returns the optional user in the arguments after the target, or none if there are too many.
fn user_in(arguments: &[String]) -> Option<Option<&str>>
    ensures { Names optional_words (map string_bytes arguments.now) result }
{
    let Some((user, rest)) = arguments.split_first() else {
        return Some(None);
    };
    if rest.is_empty() {
        Some(Some(user.as_str()))
    } else {
        None
    }
}
