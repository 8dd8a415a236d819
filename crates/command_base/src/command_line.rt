//! The arguments of a run.
use std::alloc::{AllocError, Global};
use std::rt::Env;
use std::{env, io};
use terminal_text::without_values;

/// The arguments of this run, the program's name among them; none where one is not UTF-8. The only error is out of memory.
pub fn arguments<R: Env + AllocGlobal>(rt: &R) -> Result<Option<Vec<String>>, AllocError> {
    let mut arguments = Vec::new(rt.alloc());
    match env::args(rt) {
        Ok(all) => {
            for argument in all {
                arguments.push(argument)?;
            }
            Ok(Some(arguments))
        }
        Err(error) if error.kind() == io::ErrorKind::OutOfMemory => Err(AllocError),
        Err(_) => Ok(None),
    }
}

/// What clap says of arguments that it refuses, without what may be a password. The only error is out of memory.
pub fn refusal_text(alloc: Global, error: &clap::Error) -> Result<String, AllocError> {
    let text = format!(in alloc; "{error}")?;
    let text = text.as_str().trim_end();
    let text = match text.strip_prefix("error: ") {
        Some(rest) => rest,
        None => text,
    };
    without_values(alloc, text)
}
