//! What every other crate is made of: octets, texts and lists in memory of their own, short octets in place, and numbers
//! in decimal digits; and the outside of a program as its code sees it: where octets come from, where they go, and where
//! random octets come from. Each of these has a form in memory, which tells its octets and fails at chosen calls, and
//! forms over the streams and generators of a real program.
#![tactic(auto)]

mod decimal;
mod draw;
mod drawn_bytes;
mod failed;
mod failing_draw;
mod file_draw;
mod items;
pub mod laws;
mod memory_sink;
mod memory_source;
mod octets;
mod padded;
mod read_draw;
mod read_source;
mod short_octets;
mod sink;
mod source;
mod text;
mod try_rng_draw;
mod write_sink;

pub use decimal::{decimal_of, decimal_u64_of};
pub use draw::Draw;
pub use drawn_bytes::DrawnBytes;
pub use failed::Failed;
pub use failing_draw::FailingDraw;
pub use file_draw::FileDraw;
pub use items::Items;
pub use memory_sink::MemorySink;
pub use memory_source::MemorySource;
pub use octets::Octets;
pub use padded::pad;
pub use read_draw::ReadDraw;
pub use read_source::ReadSource;
pub use short_octets::ShortOctets;
pub use sink::Sink;
pub use source::Source;
pub use text::Text;
pub use try_rng_draw::TryRngDraw;
pub use write_sink::WriteSink;
