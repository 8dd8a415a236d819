//! Passwords among the arguments, which are refused and never printed.
use crate::ending::{Ending, Failure};
use terminal_text::is_password_given;

const NO_PASSWORD_ARGUMENT: &str = "\
a password is not given on the command line, since other users can read that (it is not shown)";

const PASSWORD_OPTIONS: &str = "\
Give it by one of these, or with --new- in front; or run pkcs12 at a terminal, where it asks for it:
    --password-file FILE    --password-env NAME    --password-stdin";

/// `Usage` where a password is given as an argument, which is not printed.
pub fn without_password_argument(arguments: &[String]) -> Result<(), Failure> {
    if is_password_given(arguments) {
        return Err(Failure::new(Ending::Usage, NO_PASSWORD_ARGUMENT).advised(PASSWORD_OPTIONS));
    }
    Ok(())
}
