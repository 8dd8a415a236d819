//! Friendly names, of which no two entries may have the same.
ghost use Rattle.std.specs.Prelude.{◌≡◌, IfOk};
ghost use Rattle.std.specs.List.{list_any};
ghost use Rattle.std.specs.Option.{option_copied};
ghost use Rattle.pkcs12_creation.specs.Names.{IsRepeatedName, has_name, is_repeated};

use pkcs12_arguments::Pair;
use std::alloc::{AllocError, Global};

/// Whether one of these pairs has a name that is this one in lower case.
fn has_name(alloc: Global, pairs: &[Pair<'_>], lowered: &str) -> Result<bool, AllocError>
    ensures { IfOk result (λ found. found ≡ list_any (has_name lowered.now) pairs.now) }
{
    for pair in pairs {
        if let Some(name) = pair.name {
            let other = name.to_lowercase(alloc)?;
            if other.as_str() == lowered {
                return Ok(true);
            }
        }
    }
    Ok(false)
}

/// Whether the name of a pair is that of one before it.
fn is_repeated(alloc: Global, before: &[Pair<'_>], pair: &Pair<'_>) -> Result<bool, AllocError>
    ensures { IfOk result (λ repeated. repeated
        ≡ is_repeated before.now (option_copied pair.now.name)) }
{
    match pair.name {
        Some(name) => {
            let lowered = name.to_lowercase(alloc)?;
            has_name(alloc, before, lowered.as_str())
        }
        None => Ok(false),
    }
}

/// The first name that an earlier pair has too, but for the case of its letters, which Java does not tell. The only error is out of
/// memory.
pub fn repeated_name<'a>(alloc: Global, pairs: &[Pair<'a>]) -> Result<Option<&'a str>, AllocError>
    ensures { IfOk result (λ name. IsRepeatedName pairs.now (option_copied name)) }
{
    for place in 0..pairs.len() {
        if is_repeated(alloc, &pairs[..place], &pairs[place])? {
            return Ok(pairs[place].name);
        }
    }
    Ok(None)
}
