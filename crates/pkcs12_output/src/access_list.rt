//! What is replaced may have an access control list.
use std::env;
use std::rt::Env;
use terminal_text::Printable;

/// Where this variable is set, the wrapper has seen one, which the program cannot ask for.
const LISTED: &str = "PKCS12_LISTED";

/// Whether what is to be replaced has an access control list. The group's bits of a mode then say what others may do at most, and not
/// what the group may.
pub fn is_listed<R: Env + AllocGlobal>(rt: &R) -> bool {
    env::var(rt, LISTED).is_ok()
}

/// Says on the standard error that what was replaced at this path had one, which is not kept.
pub fn tell_not_kept<R: Eprint>(rt: &R, path: &str) {
    let shown = Printable(path);
    // A standard error that cannot be written to is no failure of the work.
    match eprintln!(rt;
        "pkcs12: {shown} had an access control list, which is not kept: it is for its owner alone now"
    ) {
        Ok(()) | Err(_) => {}
    }
}
