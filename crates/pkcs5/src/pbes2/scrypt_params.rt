//! The parameters of scrypt.
ghost use Rattle.std.specs.Prelude.{◌≡◌, ◌<◌, ◌≢◌, ◌^◌, ℕ, IfSome, IsNone, IfOk, IfErr, MatchResult, refl};
ghost use Rattle.asn1_core.specs.Der.{el};
ghost use Rattle.asn1_core.specs.Gives.{Gives};
ghost use Rattle.scrypt_core.specs.Params.{Lawful};
ghost use Rattle.spki.specs.Seen.{borrowed_any};
ghost use Rattle.pkcs5.specs.Error.{InvalidOf};
ghost use Rattle.pkcs5.specs.Generation.{RefusesScrypt, TakesScrypt, scrypt_of};
ghost use Rattle.pkcs5.specs.Identifiers.{scrypt_oid};
ghost use Rattle.pkcs5.specs.Opening.{TakesCosts};
ghost use Rattle.pkcs5.specs.ScryptParams.{ScryptParamsOf, scrypt_params_content, AreScryptParams};
ghost use Rattle.pkcs5.specs.ScryptParamsLaws.{scrypt_params_of-exact, scrypt_params_canonical, scrypt_params_spelled};
ghost use Rattle.pkcs5.specs.SameLaws.{scrypt_params_same};
ghost use Rattle.pkcs5.specs.declared.pbes2.kdf.Kdf.TheVariants.{Scrypt};
ghost use Rattle.pkcs5.specs.declared.pbes2.scrypt_params.ScryptParams.{ScryptParams};
ghost use Rattle.pkcs5.specs.Reading.{scrypt_params_of, scrypt_params_in};

use crate::error;
use crate::pbes2::identifiers::SCRYPT_OID;
use crate::pbes2::salt::Salt;
use asn1_core::{Error, Header, Length, Reader, SliceReader, Tag, Writer};
use der_core::{
    AnyRef, Canonical, Compared, Decode, DecodeValue, EncodeValue, FixedTag, Pair, Sequence,
    Spelled, pair_len, write_pair,
};

/// The parameters of scrypt (RFC 7914 section 7.1).
///
/// ```text
/// scrypt-params ::= SEQUENCE {
///     salt OCTET STRING,
///     costParameter INTEGER (1..MAX),
///     blockSize INTEGER (1..MAX),
///     parallelizationParameter INTEGER (1..MAX),
///     keyLength INTEGER (1..MAX) OPTIONAL
/// }
/// ```
#[derive(Clone, Copy, Debug, PartialEq, Eq, Drop)]
pub struct ScryptParams {
    /// The salt.
    pub salt: Salt,
    /// The number of turns, N: scrypt takes a power of two.
    pub cost_parameter: u64,
    /// The block size, r: turns are made on 128 times so many octets.
    pub block_size: u16,
    /// The number of pieces, p.
    pub parallelization: u16,
    /// The length of the derived key in octets, where it is stated.
    pub key_length: Option<u16>,
}

/// The refusal of parameters of scrypt.
fn invalid() -> error::Error
    ensures { InvalidOf scrypt_oid result }
{
    error::Error::AlgorithmParametersInvalid { oid: SCRYPT_OID }
}

/// The number as one of a parameter. `AlgorithmParametersInvalid` exactly where it is more than 65,535.
fn narrowed(n: u32) -> error::Result<u16>
    ensures { MatchResult result (λ v. v ≡ n) (λ e. InvalidOf scrypt_oid e × (65535 < n)) }
{
    if n > 65_535 {
        return Err(invalid());
    }
    Ok(n as u16)
}

/// The power of two that a number of turns is, where it is one.
fn log_of(cost: u64) -> Option<u8>
    ensures some { IfSome result (λ k. (k < 64) × (2 ^ k ≡ cost)) }
    ensures none { IsNone result → (k : ℕ) → k < 64 → 2 ^ k ≢ cost }
{
    for k in 0..64u8 {
        if 1u64 << k == cost {
            return Some(k);
        }
    }
    None
}

/// The costs that parameters state.
pub(crate) fn costs_of(params: &ScryptParams) -> error::Result<scrypt_core::Params>
    ensures ok { IfOk result (λ c. (2 ^ c.log_n ≡ params.now.cost_parameter)
        × (c.r ≡ params.now.block_size) × (c.p ≡ params.now.parallelization)) }
    ensures taken { IfOk result (λ c. TakesCosts (Scrypt params.now)) }
    ensures err { IfErr result (λ e. InvalidOf scrypt_oid e × ¬ TakesCosts (Scrypt params.now)) }
{
    let Some(log_n) = log_of(params.cost_parameter) else {
        return Err(invalid());
    };
    let (r, p) = (
        u32::from(params.block_size),
        u32::from(params.parallelization),
    );
    match scrypt_core::Params::new(log_n, r, p) {
        Ok(costs) => Ok(costs),
        Err(_) => Err(invalid()),
    }
}

impl ScryptParams {
    /// Parameters with these costs and this salt, which state no key length. `AlgorithmParametersInvalid` with the
    /// identifier of scrypt exactly where the salt has more than 32 octets, or the block size or the number of pieces
    /// is more than 65,535.
    pub fn from_params_and_salt(
        params: scrypt_core::Params,
        salt: &[u8],
    ) -> error::Result<ScryptParams>
        ensures { MatchResult result
            (λ v. (v ≡ scrypt_of params salt.now) × TakesScrypt params salt.now)
            (λ e. InvalidOf scrypt_oid e × RefusesScrypt params salt.now) }
    {
        let Ok(salt) = Salt::new(salt) else {
            return Err(invalid());
        };
        let block_size = narrowed(params.r())?;
        let parallelization = narrowed(params.p())?;
        Ok(ScryptParams {
            salt,
            cost_parameter: 1u64 << params.log_n(),
            block_size,
            parallelization,
            key_length: None,
        })
    }
}

/// The costs that parameters state. `AlgorithmParametersInvalid` with the identifier of scrypt exactly where the
/// number of turns is no power of two, or scrypt refuses the costs.
impl TryFrom<ScryptParams> for scrypt_core::Params {
    type Error = error::Error;

    ghost try_from_gives = { λ v r. MatchResult r
        (λ c. (2 ^ c.log_n ≡ v.cost_parameter) × (c.r ≡ v.block_size) × (c.p ≡ v.parallelization))
        (λ e. InvalidOf scrypt_oid e × ¬ TakesCosts (Scrypt v)) };

    fn try_from(params: ScryptParams) -> error::Result<scrypt_core::Params> {
        costs_of(&params)
    }
}

/// The same of borrowed parameters.
impl TryFrom<&ScryptParams> for scrypt_core::Params {
    type Error = error::Error;

    ghost try_from_gives = { λ v r. MatchResult r
        (λ c. (2 ^ c.log_n ≡ v.now.cost_parameter) × (c.r ≡ v.now.block_size)
        × (c.p ≡ v.now.parallelization))
        (λ e. InvalidOf scrypt_oid e × ¬ TakesCosts (Scrypt v.now)) };

    fn try_from(params: &ScryptParams) -> error::Result<scrypt_core::Params> {
        costs_of(params)
    }
}

impl TryFrom<AnyRef<'_>> for ScryptParams {
    type Error = Error;

    ghost try_from_gives = { λ a r. Gives (λ v. v) r (scrypt_params_in (borrowed_any a)) };

    /// The parameters that an element is. `Malformed` exactly where it is none.
    fn try_from(element: AnyRef<'_>) -> Result<ScryptParams, Error> {
        element.decode_as::<ScryptParams>()
    }
}

/// The parameters whose value octets these are.
fn read_params(value: &[u8]) -> Result<ScryptParams, Error>
    ensures { Gives (λ v. v) result (scrypt_params_of value.now) }
{
    let mut inner = SliceReader::new(value);
    let salt = Salt::decode(&mut inner)?;
    let cost_parameter = u64::decode(&mut inner)?;
    let block_size = u16::decode(&mut inner)?;
    let parallelization = u16::decode(&mut inner)?;
    let key_length = Option::<u16>::decode(&mut inner)?;
    inner.finish()?;
    Ok(ScryptParams {
        salt,
        cost_parameter,
        block_size,
        parallelization,
        key_length,
    })
}

impl FixedTag for ScryptParams {
    ghost TAG = { record { first = 0x30; is_tag = refl } };

    const TAG: Tag = Tag::SEQUENCE;
}

impl<'a> DecodeValue<&'a [u8]> for ScryptParams {
    ghost Seen = { ScryptParams };

    ghost seen = { λ v. v };

    ghost value = { λ t. scrypt_params_of };

    ghost text = { λ t. ScryptParamsOf };

    fn decode_value<R: Reader<&'a [u8]>>(r: &mut R, header: Header) -> Result<ScryptParams, Error> {
        let mut ahead = *r;
        let value = ahead.read_slice(header.length)?;
        let params = read_params(value)?;
        *r = ahead;
        Ok(params)
    }

    ghost exact = { λ t. scrypt_params_of-exact };
}

impl EncodeValue for ScryptParams {
    ghost content = { scrypt_params_content };

    ghost writable = { AreScryptParams };

    fn value_len(&self) -> Result<Length, Error> {
        let front = Pair(&self.salt, &self.cost_parameter);
        let front = Pair(&front, &self.block_size);
        let front = Pair(&front, &self.parallelization);
        pair_len(&front, &self.key_length)
    }

    fn encode_value<W: Writer>(&self, w: &mut W) -> Result<(), Error> {
        let front = Pair(&self.salt, &self.cost_parameter);
        let front = Pair(&front, &self.block_size);
        let front = Pair(&front, &self.parallelization);
        write_pair(w, &front, &self.key_length)
    }
}

impl<'a> Sequence<&'a [u8]> for ScryptParams {
    ghost sequence = { refl };
}

impl<'a> Canonical<&'a [u8]> for ScryptParams {
    ghost canonical = { λ v h. scrypt_params_canonical v h };
}

impl<'a> Spelled<&'a [u8]> for ScryptParams {
    ghost spell = { λ b v. b ≡ el 0x30 (scrypt_params_content v) };

    ghost spelled = { scrypt_params_spelled };
}

impl<'a> Compared<&'a [u8]> for ScryptParams {
    ghost compared = { λ v w. scrypt_params_same v w };
}
