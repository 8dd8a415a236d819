//! Algorithms without a variant of their own.
ghost use Rattle.std.specs.Prelude.{◌≡◌, IfOk, IfErr};

use crate::error::Error;
use asn1_core::{ObjectIdentifier, Octets};
use std::alloc::Global;

/// An algorithm that has no variant of its own in `AlgorithmIdentifier`, or PBES2 with parameters that are not read: its
/// identifier, and its parameters as they are.
#[derive(Debug, PartialEq, Eq, Drop)]
pub struct OtherAlgorithmIdentifier {
    pub algorithm_type: ObjectIdentifier,
    pub params: Option<Octets>,
}

impl OtherAlgorithmIdentifier {
    /// An equal value in memory of its own. The only refusal is `Memory`.
    pub fn try_clone(&self, alloc: Global) -> Result<OtherAlgorithmIdentifier, Error>
        ensures ok { IfOk result (λ v. v ≡ self.now) }
        ensures err { IfErr result (λ e. e ≡ Error.Memory) }
    {
        let params = match &self.params {
            Some(params) => Some(params.try_clone(alloc)?),
            None => None,
        };
        Ok(OtherAlgorithmIdentifier {
            algorithm_type: self.algorithm_type,
            params,
        })
    }
}
