//! What is said of a store that is refused.
use std::alloc::{AllocError, Global};

/// What is said of a store: what exactly is wrong, and what to do.
#[derive(Drop)]
pub struct Detail {
    pub text: String,
    pub advice: Option<String>,
}

impl Detail {
    /// What is wrong, with the advice that the kind of failure has.
    pub fn of(text: String) -> Detail {
        Detail { text, advice: None }
    }

    /// What is wrong, with this advice.
    pub fn advised(alloc: Global, text: String, advice: &str) -> Result<Detail, AllocError> {
        Ok(Detail {
            text,
            advice: Some(String::from_str(alloc, advice)?),
        })
    }
}
