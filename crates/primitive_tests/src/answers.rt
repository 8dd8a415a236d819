//! What a call returns.
use std::alloc::Global;
use std::fmt::Display;

/// Whether the result is this value.
pub fn gives<T: PartialEq + Drop, E: Drop>(answer: Result<T, E>, value: &T) -> bool {
    match answer {
        Ok(given) => given == *value,
        Err(_) => false,
    }
}

/// Whether the result is this refusal.
pub fn refuses<T: Drop, E: PartialEq + Drop>(answer: Result<T, E>, refusal: E) -> bool {
    match answer {
        Ok(_) => false,
        Err(given) => given == refusal,
    }
}

/// Whether the value is printed as this text.
pub fn prints<T: Display>(alloc: Global, value: &T, text: &str) -> bool {
    match value.to_string(alloc) {
        Ok(printed) => printed.as_str() == text,
        Err(_) => false,
    }
}
