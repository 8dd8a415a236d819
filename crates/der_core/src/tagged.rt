//! Types that know their tags.
ghost use Rattle.std.specs.Prelude.{◌≡◌, ℕ};
ghost use Rattle.asn1_core.specs.declared.tag.Tag.{Tag};

use asn1_core::Tag;

/// A type whose texts all have one tag.
pub trait FixedTag {
    ghost TAG: { Tag };

    /// The tag of each text of this type.
    const TAG: Tag;
}

/// A value that knows the tag of its text.
pub trait Tagged {
    ghost tag_of: { Self → ℕ };

    /// The tag of this value's text.
    fn tag(&self) -> Tag
        ensures { result.first ≡ tag_of self.now };
}

impl<T: FixedTag> Tagged for T {
    ghost tag_of = { λ _. T.TAG.first };

    fn tag(&self) -> Tag {
        T::TAG
    }
}
