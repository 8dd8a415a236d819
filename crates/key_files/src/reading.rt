//! Reading parts of keys.
ghost use Rattle.std.specs.Prelude.{◌≡◌};
ghost use Rattle.std.specs.Option.{option_copied};
ghost use Rattle.asn1_core.specs.Gives.{ReadsAs};
ghost use Rattle.key_files.specs.Reading.{others_at};

use asn1_core::{Error, Reader, SliceReader, Tag, read_inner};

/// The primes beyond the second, which a key of two primes does not have.
#[tactic(auto, unfolding(crate::specs::Reading::others_at))]
pub(crate) fn read_others<'a>(r: &mut SliceReader<'a>) -> Result<Option<&'a [u8]>, Error>
    ensures { ReadsAs others_at option_copied r.old.rest.now r.new.rest.now result }
{
    if r.is_finished() {
        return Ok(None);
    }
    let next = r.peek_tag()?;
    if next.first != 0x30 {
        return Ok(None);
    }
    let others = read_inner(r, Tag::SEQUENCE)?;
    Ok(Some(others.rest))
}
