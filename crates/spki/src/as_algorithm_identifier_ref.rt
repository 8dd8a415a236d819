//! Algorithms in either form, borrowed.
ghost use Rattle.std.specs.Prelude.{◌≡◌};
ghost use Rattle.spki.specs.Seen.{AnyAlgorithm, borrowed_algorithm, owned_algorithm};

use crate::algorithm::{AlgorithmIdentifierOwned, AlgorithmIdentifierRef};

/// An algorithm, borrowed or in memory of its own.
pub trait AsAlgorithmIdentifierRef {
    ghost algorithm: { Self → AnyAlgorithm };

    /// The algorithm, borrowed.
    fn as_algo_ref<'a>(&'a self) -> AlgorithmIdentifierRef<'a>
        ensures { borrowed_algorithm result ≡ algorithm self.now };
}

impl AsAlgorithmIdentifierRef for AlgorithmIdentifierRef<'_> {
    ghost algorithm = { borrowed_algorithm };

    fn as_algo_ref<'a>(&'a self) -> AlgorithmIdentifierRef<'a>
        ensures { borrowed_algorithm result ≡ borrowed_algorithm self.now }
    {
        *self
    }
}

impl AsAlgorithmIdentifierRef for AlgorithmIdentifierOwned {
    ghost algorithm = { owned_algorithm };

    fn as_algo_ref<'a>(&'a self) -> AlgorithmIdentifierRef<'a> {
        self.owned_to_ref()
    }
}
