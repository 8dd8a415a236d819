//! Tags of elements.
ghost use Rattle.std.specs.Prelude.{◌≡◌, ◌↔◌, IsTrue, IfOk, IfErr, IsOk};
ghost use Rattle.asn1_core.specs.Der.{is_tag};

use crate::error::Error;

/// The tag of an element (X.690 section 8.1.2): one octet, whose low five bits are not all set.
#[derive(Clone, Copy, Debug, PartialEq, Eq, PartialOrd, Ord, Hash, Drop)]
pub struct Tag {
    pub first: u8,
    ghost is_tag: { IsTrue (is_tag first) },
}

impl Tag {
    pub const INTEGER: Tag = Tag { first: 0x02 };

    pub const BIT_STRING: Tag = Tag { first: 0x03 };

    pub const OCTET_STRING: Tag = Tag { first: 0x04 };

    pub const NULL: Tag = Tag { first: 0x05 };

    pub const OBJECT_IDENTIFIER: Tag = Tag { first: 0x06 };

    pub const IA5_STRING: Tag = Tag { first: 0x16 };

    pub const BMP_STRING: Tag = Tag { first: 0x1e };

    pub const SEQUENCE: Tag = Tag { first: 0x30 };

    pub const SET: Tag = Tag { first: 0x31 };

    /// A constructed element of the context class, with the number 0.
    pub const CONTEXT_0: Tag = Tag { first: 0xa0 };

    /// A primitive element of the context class, with the number 0.
    pub const PRIMITIVE_CONTEXT_0: Tag = Tag { first: 0x80 };

    /// The tag of this octet. `Malformed` exactly where its low five bits are all set.
    pub fn from_octet(octet: u8) -> Result<Tag, Error>
        ensures ok { IfOk result (λ t. t.first ≡ octet) }
        ensures exact { IsOk result ↔ IsTrue (is_tag octet) }
        ensures err { IfErr result (λ e. e ≡ Error.Malformed) }
    {
        if octet % 32 == 31 {
            return Err(Error::Malformed);
        }
        Ok(Tag { first: octet })
    }

    /// The tag as an octet.
    pub fn octet(self) -> u8
        ensures { result ≡ self.first }
    {
        self.first
    }
}
