//! What is said to the user.

/// Text for the user, which was written beforehand or made for the occasion.
#[derive(Drop)]
pub enum Message {
    Fixed(&'static str),
    Made(String),
}

impl Message {
    /// The text.
    pub fn as_str(&self) -> &str {
        match self {
            Message::Fixed(text) => text,
            Message::Made(text) => text.as_str(),
        }
    }
}
