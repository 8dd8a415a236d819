//! The command `sample`: a store of generated keys and certificates, and what its transfer gives.
pub(crate) mod generator;
pub(crate) mod lines;
pub(crate) mod material;
pub(crate) mod store;
