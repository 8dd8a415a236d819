//! Making stores.
ghost use Rattle.std.specs.Prelude.{◌≡◌, ◌<◌, ◌≤◌, ◌^◌, All, length, IfErr, IfOk, OnOk};
ghost use Rattle.std.specs.Result.{IsErrOf};
ghost use Rattle.asn1_core.specs.Der.{IsShort};
ghost use Rattle.p12.specs.Building.{DrawsSalt, FailsToDraw, IsTooLong, RefusesBags, SealsBags, triple_des};
ghost use Rattle.p12.specs.Canonical.{WritableBag, bags_canon};
ghost use Rattle.p12.specs.declared.algorithm_identifier.AlgorithmIdentifier.TheVariants as algorithm;

use crate::algorithm_identifier::AlgorithmIdentifier;
use crate::encrypted_data::EncryptedContentInfo;
use crate::error::Error;
use crate::pkcs12_pbe_params::Pkcs12PbeParams;
use crate::safe_bag::SafeBag;
use asn1_core::Octets;
use mac_modes::Draw;
use std::alloc::Global;

/// The rounds of each derivation.
pub(crate) const ITERATIONS: u32 = 2_048;

/// Draws a salt. `Rng` exactly where the draw fails.
pub(crate) fn draw_salt<D: Draw>(draw: &mut D) -> Result<[u8; 8], Error>
    ensures ok { IfOk result (λ s. DrawsSalt (D.left draw.old) (D.left draw.new)
        (λ salt. s ≡ salt)) }
    ensures err { IfErr result
        (FailsToDraw (D.faults draw.old) (D.faults draw.new) (D.left draw.old) 8) }
    ensures count { D.faults draw.old ≤ D.faults draw.new }
    ensures no_fault { OnOk result (D.faults draw.new ≡ D.faults draw.old) }
    ensures last { D.faults draw.old < D.faults draw.new → IsErrOf result Error.Rng }
{
    let mut salt = [0u8; 8];
    match draw.fill(&mut salt) {
        Ok(()) => Ok(salt),
        Err(_) => Err(Error::Rng),
    }
}

/// Triple DES under a salt.
pub(crate) fn algorithm_under(alloc: Global, salt: &[u8]) -> Result<AlgorithmIdentifier, Error>
    ensures ok { IfOk result (λ a. a ≡ triple_des salt.now) }
    ensures err { IfErr result (λ e. e ≡ Error.Memory) }
{
    Ok(AlgorithmIdentifier::PbeWithSHAAnd3KeyTripleDESCBC(Pkcs12PbeParams {
        salt: Octets::from_slice(alloc, salt)?,
        iterations: u64::from(ITERATIONS),
    }))
}

/// Bags, encrypted under a salt.
pub(crate) fn seal_bags(
    alloc: Global,
    bags: &[SafeBag],
    password: &[u8],
    salt: &[u8],
) -> Result<EncryptedContentInfo, Error>
    requires password { length password.now < 2 ^ 59 }
    requires salt { length salt.now ≡ 8 }
    ensures ok { IfOk result (SealsBags password.now bags.now salt.now) }
    ensures lawful { OnOk result (All WritableBag bags.now) }
    ensures short { OnOk result (IsShort (bags_canon bags.now)) }
    ensures fitting { OnOk result (¬ (IsTooLong (bags_canon bags.now))) }
    ensures err { IfErr result (RefusesBags bags.now) }
{
    let text = SafeBag::all_to_der(alloc, bags)?;
    let algorithm = algorithm_under(alloc, salt)?;
    let encrypted_content = algorithm.encrypt_pbe(alloc, text.as_slice(), password)?;
    Ok(EncryptedContentInfo {
        content_encryption_algorithm: algorithm,
        encrypted_content,
    })
}
