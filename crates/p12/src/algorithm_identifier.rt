//! Algorithms of PKCS#12.
ghost use Rattle.std.specs.Prelude.{◌+◌, ◌*◌, ◌≡◌, ◌<◌, ◌≤◌, ◌^◌, length, take, OnOk, IfOk, IfErr, IfSome, IfNone, Some, None, true};
ghost use Rattle.asn1_core.specs.Gives.{Gives, ReadsAs};
ghost use Rattle.p12.specs.AlgorithmView.{LeftUnopened, left_pbe, seen_algorithm};
ghost use Rattle.asn1_core.specs.declared.error.Error.TheVariants as asn1;
ghost use Rattle.p12.specs.AlgorithmIdentifier.{IsUnderDes, AlgorithmText, IsSealed, RefusesToSeal, ciphertext_length, cost, count, is_triple_des, openable, salt_of, taken, taken_pbe, unlock, unlock_pbe};
ghost use Rattle.pkcs5.specs.Kinds as kinds;
ghost use Rattle.pkcs5.specs.Opening as opening;
ghost use Rattle.p12.specs.Error.{Reads};
ghost use Rattle.asn1_core.specs.Reading.{made, perhaps, whole};
ghost use Rattle.p12.specs.declared.algorithm_identifier.AlgorithmIdentifier.TheVariants as algorithm;
ghost use Rattle.p12.specs.Reading.{null_at, digest_all, rc2_all, triple_des_all, pbes2_all, other_algorithm_all, algorithm_all, algorithm_at};
ghost use Rattle.asn1_core.specs.Der.{IsShort};
ghost use Rattle.p12.specs.Canonical.{WritableAlgorithm, algorithm_canon};
ghost use Rattle.p12.specs.Writing.{WritesText};

use crate::error::Error;
use crate::identifiers::{
    PBE_WITH_SHA1_AND_3KEY_TRIPLE_DES_CBC, PBE_WITH_SHA1_AND_40BIT_RC2_CBC, SHA1, SHA256,
};
use crate::opening::{TRIPLE_DES_BLOCK, open_blocks, open_pbes2, opened_pbes2};
use crate::other_algorithm_identifier::OtherAlgorithmIdentifier;
use crate::password::bmp_string;
use crate::pkcs12_pbe_params::{ParamsView, Pkcs12PbeParams, params_view};
use crate::sealing::{fitting, seal_blocks, seal_pbes2};
use crate::writing::write_row;
use asn1_core::{
    ObjectIdentifier, Octets, Reader, SliceReader, Tag, Writer, read_identifier, read_inner,
    read_raw,
};
use der_core::Decode;
use pkcs5::pbes2::{Kdf, PBES2_OID, Parameters, Pbkdf2Prf};
use std::alloc::Global;
use std::marker::Brand;
use std::sync::ledger::{Blank, Ledger};
use steps::Steps;

/// An algorithm and its parameters (RFC 5280 section 4.1.1.2).
///
/// ```text
/// AlgorithmIdentifier ::= SEQUENCE { algorithm OBJECT IDENTIFIER, parameters ANY OPTIONAL }
/// ```
#[derive(Debug, PartialEq, Eq, Drop)]
pub enum AlgorithmIdentifier {
    /// A digest of MACs (RFC 8017 appendix B.1).
    Sha1,
    /// A digest of MACs (RFC 8017 appendix B.1).
    Sha256,
    /// RC2 with 40 bits (RFC 7292 appendix C), which is read and never opened.
    PbewithSHAAnd40BitRC2CBC(Pkcs12PbeParams),
    /// Triple DES with three keys (RFC 7292 appendix C).
    PbeWithSHAAnd3KeyTripleDESCBC(Pkcs12PbeParams),
    /// PBES2 (RFC 8018 appendix A.4).
    Pbes2(Parameters),
    /// Any other algorithm, and PBES2 with parameters that are none of it.
    OtherAlg(OtherAlgorithmIdentifier),
}

/// An algorithm and its parameters, which it lends from the octets that were parsed. A contract sees the algorithm in memory of
/// its own.
#[derive(Clone, Copy, Debug, Drop)]
pub enum AlgorithmView<'a> {
    Sha1,
    Sha256,
    /// RC2 with 40 bits.
    Rc2 {
        salt: &'a [u8],
        iterations: u64,
    },
    /// Triple DES with three keys.
    TripleDes {
        salt: &'a [u8],
        iterations: u64,
    },
    Pbes2(Parameters),
    Other {
        algorithm_type: ObjectIdentifier,
        params: Option<&'a [u8]>,
    },
}

/// That there is nothing, or NULL.
fn no_parameters(mut body: SliceReader<'_>) -> Result<(), asn1_core::Error>
    ensures { Gives (λ u. u) result (made (λ o. tt) (perhaps null_at) body.entry.rest.now) }
{
    if body.is_finished() {
        return Ok(());
    }
    let null = read_inner(&mut body, Tag::NULL)?;
    null.finish()?;
    body.finish()
}

fn sha1_view<'a>(body: SliceReader<'a>) -> Result<AlgorithmView<'a>, asn1_core::Error>
    ensures { Gives seen_algorithm result (digest_all algorithm.Sha1 body.entry.rest.now) }
{
    no_parameters(body)?;
    Ok(AlgorithmView::Sha1)
}

fn sha256_view<'a>(body: SliceReader<'a>) -> Result<AlgorithmView<'a>, asn1_core::Error>
    ensures { Gives seen_algorithm result (digest_all algorithm.Sha256 body.entry.rest.now) }
{
    no_parameters(body)?;
    Ok(AlgorithmView::Sha256)
}

fn rc2_view<'a>(mut body: SliceReader<'a>) -> Result<AlgorithmView<'a>, asn1_core::Error>
    ensures { Gives seen_algorithm result (rc2_all body.entry.rest.now) }
{
    let params = params_view(&mut body)?;
    body.finish()?;
    Ok(AlgorithmView::Rc2 {
        salt: params.salt,
        iterations: params.iterations,
    })
}

fn triple_des_view<'a>(mut body: SliceReader<'a>) -> Result<AlgorithmView<'a>, asn1_core::Error>
    ensures { Gives seen_algorithm result (triple_des_all body.entry.rest.now) }
{
    let params = params_view(&mut body)?;
    body.finish()?;
    Ok(AlgorithmView::TripleDes {
        salt: params.salt,
        iterations: params.iterations,
    })
}

fn other_view<'a>(
    algorithm_type: ObjectIdentifier,
    mut body: SliceReader<'a>,
) -> Result<AlgorithmView<'a>, asn1_core::Error>
    ensures { Gives seen_algorithm result (other_algorithm_all algorithm_type body.entry.rest.now) }
{
    if body.is_finished() {
        return Ok(AlgorithmView::Other {
            algorithm_type,
            params: None,
        });
    }
    let value = read_raw(&mut body)?;
    body.finish()?;
    Ok(AlgorithmView::Other {
        algorithm_type,
        params: Some(value),
    })
}

fn pbes2_view<'a>(
    algorithm_type: ObjectIdentifier,
    body: SliceReader<'a>,
) -> Result<AlgorithmView<'a>, asn1_core::Error>
    ensures { Gives seen_algorithm result (pbes2_all algorithm_type body.entry.rest.now) }
{
    match Parameters::from_der(body.rest) {
        Ok(parameters) => Ok(AlgorithmView::Pbes2(parameters)),
        Err(_) => other_view(algorithm_type, body),
    }
}

#[tactic(auto, unfolding(crate::specs::Reading::algorithm_all))]
fn view_of<'a>(
    algorithm_type: ObjectIdentifier,
    body: SliceReader<'a>,
) -> Result<AlgorithmView<'a>, asn1_core::Error>
    ensures { Gives seen_algorithm result (algorithm_all algorithm_type body.entry.rest.now) }
{
    if algorithm_type == SHA1 {
        sha1_view(body)
    } else if algorithm_type == SHA256 {
        sha256_view(body)
    } else if algorithm_type == PBE_WITH_SHA1_AND_40BIT_RC2_CBC {
        rc2_view(body)
    } else if algorithm_type == PBE_WITH_SHA1_AND_3KEY_TRIPLE_DES_CBC {
        triple_des_view(body)
    } else if algorithm_type == PBES2_OID {
        pbes2_view(algorithm_type, body)
    } else {
        other_view(algorithm_type, body)
    }
}

/// The algorithm that comes next.
#[tactic(auto, unfolding(crate::specs::Reading::algorithm_at))]
pub(crate) fn algorithm_view<'a>(
    r: &mut SliceReader<'a>,
) -> Result<AlgorithmView<'a>, asn1_core::Error>
    ensures exact { ReadsAs algorithm_at seen_algorithm r.old.rest.now r.new.rest.now result }
    ensures place { r.new.read + length r.new.rest.now ≡ r.old.read + length r.old.rest.now }
{
    let mut ahead = *r;
    let mut body = read_inner(&mut ahead, Tag::SEQUENCE)?;
    let algorithm_type = read_identifier(&mut body)?;
    let algorithm = match view_of(algorithm_type, body) {
        Ok(algorithm) => algorithm,
        Err(error) => return Err(error),
    };
    *r = ahead;
    Ok(algorithm)
}

impl<'a> AlgorithmView<'a> {
    /// The same in memory of its own. The only refusal is `Memory`.
    pub fn owned(&self, alloc: Global) -> Result<AlgorithmIdentifier, asn1_core::Error>
        ensures ok { IfOk result (λ a. a ≡ seen_algorithm self.now) }
        ensures err { IfErr result (λ e. e ≡ asn1.Memory) }
    {
        Ok(match self {
            AlgorithmView::Sha1 => AlgorithmIdentifier::Sha1,
            AlgorithmView::Sha256 => AlgorithmIdentifier::Sha256,
            AlgorithmView::Rc2 { salt, iterations } => {
                AlgorithmIdentifier::PbewithSHAAnd40BitRC2CBC(Pkcs12PbeParams {
                    salt: Octets::from_slice(alloc, salt)?,
                    iterations: *iterations,
                })
            }
            AlgorithmView::TripleDes { salt, iterations } => {
                AlgorithmIdentifier::PbeWithSHAAnd3KeyTripleDESCBC(Pkcs12PbeParams {
                    salt: Octets::from_slice(alloc, salt)?,
                    iterations: *iterations,
                })
            }
            AlgorithmView::Pbes2(parameters) => AlgorithmIdentifier::Pbes2(*parameters),
            AlgorithmView::Other {
                algorithm_type,
                params,
            } => {
                let params = match params {
                    Some(params) => Some(Octets::from_slice(alloc, params)?),
                    None => None,
                };
                AlgorithmIdentifier::OtherAlg(OtherAlgorithmIdentifier {
                    algorithm_type: *algorithm_type,
                    params,
                })
            }
        })
    }
}

impl AlgorithmIdentifier {
    /// The algorithm that comes next. `Malformed` exactly where none does; the other refusal is `Memory`. A refusal does
    /// not move the reader.
    pub fn parse(alloc: Global, r: &mut SliceReader<'_>) -> Result<AlgorithmIdentifier, Error>
        ensures stands { Reads AlgorithmText r.old.rest.now r.new.rest.now result }
        ensures place { r.new.read + length r.new.rest.now ≡ r.old.read + length r.old.rest.now }
    {
        let mut ahead = *r;
        let view = match algorithm_view(&mut ahead) {
            Ok(view) => view,
            Err(error) => return Err(error.into()),
        };
        let algorithm = view.owned(alloc)?;
        *r = ahead;
        Ok(algorithm)
    }
}

impl AlgorithmIdentifier {
    /// An equal value in memory of its own. The only refusal is `Memory`.
    pub fn try_clone(&self, alloc: Global) -> Result<AlgorithmIdentifier, Error>
        ensures ok { IfOk result (λ v. v ≡ self.now) }
        ensures err { IfErr result (λ e. e ≡ Error.Memory) }
    {
        Ok(match self {
            AlgorithmIdentifier::Sha1 => AlgorithmIdentifier::Sha1,
            AlgorithmIdentifier::Sha256 => AlgorithmIdentifier::Sha256,
            AlgorithmIdentifier::Pbes2(parameters) => AlgorithmIdentifier::Pbes2(*parameters),
            AlgorithmIdentifier::PbewithSHAAnd40BitRC2CBC(params) => {
                AlgorithmIdentifier::PbewithSHAAnd40BitRC2CBC(params.try_clone(alloc)?)
            }
            AlgorithmIdentifier::PbeWithSHAAnd3KeyTripleDESCBC(params) => {
                AlgorithmIdentifier::PbeWithSHAAnd3KeyTripleDESCBC(params.try_clone(alloc)?)
            }
            AlgorithmIdentifier::OtherAlg(other) => {
                AlgorithmIdentifier::OtherAlg(other.try_clone(alloc)?)
            }
        })
    }
}

/// The octets of an output of a pseudorandom function.
fn prf_output(prf: Pbkdf2Prf) -> u64
    ensures { result ≡ opening.prf_output prf }
{
    match prf {
        Pbkdf2Prf::HmacWithSha1 => 20,
        Pbkdf2Prf::HmacWithSha224 => 28,
        Pbkdf2Prf::HmacWithSha256 => 32,
        Pbkdf2Prf::HmacWithSha384 => 48,
        Pbkdf2Prf::HmacWithSha512 => 64,
    }
}

/// The outputs of the pseudorandom function that a round takes, of which there are as many as the key wants.
fn answers_of(parameters: &Parameters) -> u64
    ensures value { result ≡ opening.steps_of parameters.now }
    ensures few { result ≤ 2 }
{
    match &parameters.kdf {
        Kdf::Pbkdf2(params) => {
            let output = prf_output(params.prf);
            (parameters.encryption.key_size() as u64 + (output - 1)) / output
        }
        Kdf::Scrypt(_) => 0,
    }
}

/// How many rounds derive a key; scrypt has none.
pub(crate) fn rounds_of(kdf: &Kdf) -> u32
    ensures { result ≡ kinds.rounds_of kdf.now }
{
    match kdf {
        Kdf::Pbkdf2(params) => params.iteration_count,
        Kdf::Scrypt(_) => 0,
    }
}

/// Whether a length of the key that is stated is the cipher's.
fn states_key(parameters: &Parameters) -> bool
    ensures { result ≡ opening.states_length parameters.now.kdf
        (kinds.key_size parameters.now.encryption) }
{
    match parameters.kdf.key_length() {
        Some(stated) => usize::from(stated) == parameters.encryption.key_size(),
        None => true,
    }
}

/// The outputs of the pseudorandom function that make the key.
fn key_answers(parameters: &Parameters) -> u128
    ensures { result ≡ kinds.rounds_of parameters.now.kdf * opening.steps_of parameters.now }
{
    u128::from(u64::from(rounds_of(&parameters.kdf)) * answers_of(parameters))
}

impl<'a> AlgorithmView<'a> {
    /// Whether a text under it can be opened: Triple DES, and PBES2 with PBKDF2 where a length of the key that is stated is
    /// the cipher's.
    pub fn is_openable(&self) -> bool
        ensures { result ≡ openable (seen_algorithm self.now) }
    {
        match self {
            AlgorithmView::TripleDes { .. } => true,
            AlgorithmView::Pbes2(parameters) => {
                parameters.kdf.is_pbkdf2() && states_key(parameters)
            }
            AlgorithmView::Sha1
            | AlgorithmView::Sha256
            | AlgorithmView::Rc2 { .. }
            | AlgorithmView::Other { .. } => false,
        }
    }

    /// How many rounds derive the key; 0 for an algorithm that is neither Triple DES nor PBES2 with PBKDF2.
    pub fn count(&self) -> u64
        ensures { result ≡ count (seen_algorithm self.now) }
    {
        match self {
            AlgorithmView::TripleDes { iterations, .. } => *iterations,
            AlgorithmView::Pbes2(parameters) => u64::from(rounds_of(&parameters.kdf)),
            AlgorithmView::Sha1
            | AlgorithmView::Sha256
            | AlgorithmView::Rc2 { .. }
            | AlgorithmView::Other { .. } => 0,
        }
    }

    /// The steps of opening a text: for Triple DES three digests a round, two for the key and one for the IV; for PBES2 the
    /// outputs of the pseudorandom function that make the key; 0 for an algorithm that is neither Triple DES nor PBES2
    /// with PBKDF2.
    pub fn cost(&self) -> u128
        ensures { result ≡ cost (seen_algorithm self.now) }
    {
        match self {
            AlgorithmView::TripleDes { iterations, .. } => 3 * u128::from(*iterations),
            AlgorithmView::Pbes2(parameters) => key_answers(parameters),
            AlgorithmView::Sha1
            | AlgorithmView::Sha256
            | AlgorithmView::Rc2 { .. }
            | AlgorithmView::Other { .. } => 0,
        }
    }
}

impl AlgorithmIdentifier {
    /// Whether a text under it can be opened: Triple DES, and PBES2 with PBKDF2 where a length of the key that is stated is
    /// the cipher's.
    pub fn is_openable(&self) -> bool
        ensures { result ≡ openable self.now }
    {
        match self {
            AlgorithmIdentifier::PbeWithSHAAnd3KeyTripleDESCBC(_) => true,
            AlgorithmIdentifier::Pbes2(parameters) => {
                parameters.kdf.is_pbkdf2() && states_key(parameters)
            }
            AlgorithmIdentifier::Sha1
            | AlgorithmIdentifier::Sha256
            | AlgorithmIdentifier::PbewithSHAAnd40BitRC2CBC(_)
            | AlgorithmIdentifier::OtherAlg(_) => false,
        }
    }

    /// How many rounds derive the key; 0 for an algorithm that is neither Triple DES nor PBES2 with PBKDF2.
    pub fn count(&self) -> u64
        ensures { result ≡ count self.now }
    {
        match self {
            AlgorithmIdentifier::PbeWithSHAAnd3KeyTripleDESCBC(params) => params.iterations,
            AlgorithmIdentifier::Pbes2(parameters) => u64::from(rounds_of(&parameters.kdf)),
            AlgorithmIdentifier::Sha1
            | AlgorithmIdentifier::Sha256
            | AlgorithmIdentifier::PbewithSHAAnd40BitRC2CBC(_)
            | AlgorithmIdentifier::OtherAlg(_) => 0,
        }
    }

    /// The steps of opening a text: for Triple DES three digests a round, two for the key and one for the IV; for PBES2 the
    /// outputs of the pseudorandom function that make the key; 0 for an algorithm that is neither Triple DES nor PBES2
    /// with PBKDF2.
    pub fn cost(&self) -> u128
        ensures { result ≡ cost self.now }
    {
        match self {
            AlgorithmIdentifier::PbeWithSHAAnd3KeyTripleDESCBC(params) => {
                3 * u128::from(params.iterations)
            }
            AlgorithmIdentifier::Pbes2(parameters) => key_answers(parameters),
            AlgorithmIdentifier::Sha1
            | AlgorithmIdentifier::Sha256
            | AlgorithmIdentifier::PbewithSHAAnd40BitRC2CBC(_)
            | AlgorithmIdentifier::OtherAlg(_) => 0,
        }
    }
}

impl<'a> AlgorithmView<'a> {
    /// `decrypt_in_place_counted` under a password as `bmp_string` gives it, which opens Triple DES alone.
    #[tactic(auto, unfolding(crate::specs::AlgorithmIdentifier::unlock_pbe, crate::specs::AlgorithmIdentifier::taken_pbe, crate::specs::AlgorithmView::left_pbe))]
    fn open_pbe<L: Ledger>(
        &self,
        alloc: Global,
        password: &[u8],
        buffer: &mut [u8],
        steps: &mut Steps<L>,
    ) -> Result<Option<usize>, Error>
        requires password { length password.now < 2 ^ 59 }
        requires salt { length (salt_of (seen_algorithm self.now)) < 2 ^ 59 }
        ensures some { IfOk result (λ m. IfSome m (λ n. (n ≤ length buffer.new)
            × (unlock_pbe (seen_algorithm self.now) password.now buffer.old
            ≡ Some (take n buffer.new)))) }
        ensures none { IfOk result
            (λ m. IfNone m (unlock_pbe (seen_algorithm self.now) password.now buffer.old ≡ None)) }
        ensures left { OnOk result
            (buffer.new ≡ left_pbe (seen_algorithm self.now) password.now buffer.old) }
        ensures err { IfErr result (λ e. (e ≡ Error.Memory) × (buffer.new ≡ buffer.old)) }
        ensures steps { OnOk result
            (steps.new ≡ steps.old + taken_pbe (seen_algorithm self.now) buffer.old) }
        ensures at_most { (steps.old ≤ steps.new)
            × (steps.new ≤ steps.old + taken_pbe (seen_algorithm self.now) buffer.old) }
    {
        match self {
            AlgorithmView::TripleDes { salt, iterations } => {
                if *iterations == 0 || buffer.is_empty() || buffer.len() % TRIPLE_DES_BLOCK != 0 {
                    return Ok(None);
                }
                let params = ParamsView {
                    salt,
                    iterations: *iterations,
                };
                open_blocks(alloc, &params, password, buffer, steps)
            }
            AlgorithmView::Sha1
            | AlgorithmView::Sha256
            | AlgorithmView::Rc2 { .. }
            | AlgorithmView::Pbes2(_)
            | AlgorithmView::Other { .. } => Ok(None),
        }
    }

    /// Opens a ciphertext in place, and returns the length in octets of the plain octets, which then are in its front. Triple
    /// DES takes the password as `bmp_string` gives it, PBES2 as its UTF-8.
    ///
    /// None exactly where the algorithm is neither, the function of PBES2 is scrypt, a length of the key is stated that is not the
    /// cipher's, the count is 0, in CBC the ciphertext is empty or not whole blocks or its padding is wrong, or in GCM it has fewer
    /// than 16 octets or a wrong tag. The buffer is then as it was, but after a wrong padding it holds the decrypted blocks. The
    /// only refusal is `Memory`; the buffer is then as it was, and at most these steps were counted. Steps as
    /// `decrypt_text_counted` takes them.
    ///
    /// Caller: the buffer has fewer than 2^32 octets, the password fewer than 2^57, the salt of Triple DES or RC2 fewer than 2^59.
    #[tactic(auto, unfolding(crate::specs::AlgorithmIdentifier::unlock, crate::specs::AlgorithmIdentifier::taken, crate::specs::AlgorithmView::LeftUnopened))]
    pub fn decrypt_in_place_counted<L: Ledger>(
        &self,
        alloc: Global,
        password: &str,
        buffer: &mut [u8],
        steps: &mut Steps<L>,
    ) -> Result<Option<usize>, Error>
        requires buffer { length buffer.old < 2 ^ 32 }
        requires password { length password.now < 2 ^ 57 }
        requires salt { length (salt_of (seen_algorithm self.now)) < 2 ^ 59 }
        ensures some { IfOk result (λ m. IfSome m (λ n. (n ≤ length buffer.new)
            × (unlock (seen_algorithm self.now) password.now buffer.old
            ≡ Some (take n buffer.new)))) }
        ensures none { IfOk result
            (λ m. IfNone m (unlock (seen_algorithm self.now) password.now buffer.old ≡ None)) }
        ensures left { IfOk result
            (λ m. IfNone m (LeftUnopened
            (seen_algorithm self.now) password.now buffer.old buffer.new)) }
        ensures err { IfErr result (λ e. (e ≡ Error.Memory) × (buffer.new ≡ buffer.old)) }
        ensures steps { OnOk result
            (steps.new ≡ steps.old + taken (seen_algorithm self.now) buffer.old) }
        ensures at_most { (steps.old ≤ steps.new)
            × (steps.new ≤ steps.old + taken (seen_algorithm self.now) buffer.old) }
    {
        match self {
            AlgorithmView::TripleDes { .. } => {
                let units = bmp_string(alloc, password)?;
                self.open_pbe(alloc, units.as_slice(), buffer, steps)
            }
            AlgorithmView::Pbes2(parameters) => Ok(open_pbes2(
                parameters,
                password.as_bytes(),
                buffer,
                steps,
            )),
            AlgorithmView::Sha1
            | AlgorithmView::Sha256
            | AlgorithmView::Rc2 { .. }
            | AlgorithmView::Other { .. } => Ok(None),
        }
    }
}

impl AlgorithmIdentifier {
    /// The algorithm, its parameters lent.
    pub fn view(&self) -> AlgorithmView<'_>
        ensures { seen_algorithm result ≡ self.now }
    {
        match self {
            AlgorithmIdentifier::Sha1 => AlgorithmView::Sha1,
            AlgorithmIdentifier::Sha256 => AlgorithmView::Sha256,
            AlgorithmIdentifier::PbewithSHAAnd40BitRC2CBC(params) => AlgorithmView::Rc2 {
                salt: params.salt.as_slice(),
                iterations: params.iterations,
            },
            AlgorithmIdentifier::PbeWithSHAAnd3KeyTripleDESCBC(params) => AlgorithmView::TripleDes {
                salt: params.salt.as_slice(),
                iterations: params.iterations,
            },
            AlgorithmIdentifier::Pbes2(parameters) => AlgorithmView::Pbes2(*parameters),
            AlgorithmIdentifier::OtherAlg(other) => AlgorithmView::Other {
                algorithm_type: other.algorithm_type,
                params: match &other.params {
                    Some(params) => Some(params.as_slice()),
                    None => None,
                },
            },
        }
    }

    /// The plain octets of a ciphertext under a password, which comes as `bmp_string` gives it. None exactly where the algorithm
    /// is not Triple DES, the count is 0, the ciphertext is empty or not whole blocks of 8 octets, or its padding is wrong. The only
    /// refusal is `Memory`. One step is taken for each SHA-1 digest of a round: three times the count for Triple DES over
    /// whole blocks, and otherwise none.
    ///
    /// Caller: the ciphertext has fewer than 2^32 octets, password and salt fewer than 2^59 each.
    pub fn decrypt_pbe_counted<L: Ledger>(
        &self,
        alloc: Global,
        ciphertext: &[u8],
        password: &[u8],
        steps: &mut Steps<L>,
    ) -> Result<Option<Octets>, Error>
        requires ciphertext { length ciphertext.now < 2 ^ 32 }
        requires password { length password.now < 2 ^ 59 }
        requires salt { length (salt_of self.now) < 2 ^ 59 }
        ensures value { IfOk result (λ m. m ≡ unlock_pbe self.now password.now ciphertext.now) }
        ensures short { IfOk result
            (λ m. IfSome m (λ text. length text ≤ length ciphertext.now)) }
        ensures err { IfErr result (λ e. e ≡ Error.Memory) }
        ensures steps { OnOk result (steps.new ≡ steps.old + taken_pbe self.now ciphertext.now) }
        ensures at_most { (steps.old ≤ steps.new)
            × (steps.new ≤ steps.old + taken_pbe self.now ciphertext.now) }
    {
        let mut text = Octets::from_slice(alloc, ciphertext)?;
        match self
            .view()
            .open_pbe(alloc, password, text.as_mut_slice(), steps)?
        {
            Some(len) => {
                text.truncate(len);
                Ok(Some(text))
            }
            None => Ok(None),
        }
    }

    fn decrypt_pbe_from<L: Ledger>(
        &self,
        alloc: Global,
        ciphertext: &[u8],
        password: &[u8],
        blank: Blank,
    ) -> Result<Option<Octets>, Error>
        requires name { blank.name ≡ L.name }
        requires parts { blank.parts ≡ L.parts }
        requires some { 0 < blank.parts }
        requires ciphertext { length ciphertext.now < 2 ^ 32 }
        requires password { length password.now < 2 ^ 59 }
        requires salt { length (salt_of self.now) < 2 ^ 59 }
        ensures value { IfOk result (λ m. m ≡ unlock_pbe self.now password.now ciphertext.now) }
        ensures short { IfOk result
            (λ m. IfSome m (λ text. length text ≤ length ciphertext.now)) }
        ensures err { IfErr result (λ e. e ≡ Error.Memory) }
    {
        let mut steps = Steps::<L>::open(blank);
        self.decrypt_pbe_counted(alloc, ciphertext, password, &mut steps)
    }

    /// `decrypt_pbe_counted` where nothing is counted. Caller: as there.
    pub fn decrypt_pbe(
        &self,
        alloc: Global,
        ciphertext: &[u8],
        password: &[u8],
    ) -> Result<Option<Octets>, Error>
        requires ciphertext { length ciphertext.now < 2 ^ 32 }
        requires password { length password.now < 2 ^ 59 }
        requires salt { length (salt_of self.now) < 2 ^ 59 }
        ensures value { IfOk result (λ m. m ≡ unlock_pbe self.now password.now ciphertext.now) }
        ensures short { IfOk result
            (λ m. IfSome m (λ text. length text ≤ length ciphertext.now)) }
        ensures err { IfErr result (λ e. e ≡ Error.Memory) }
    {
        self.decrypt_pbe_from::<Brand>(alloc, ciphertext, password, Blank::new(1))
    }

    /// The plain octets of a ciphertext under a password: Triple DES takes it as `bmp_string` gives it, PBES2 as its UTF-8. None
    /// exactly where the algorithm is neither, the function of PBES2 is scrypt, a length of the key is stated that is not the
    /// cipher's, the count is 0, in CBC the ciphertext is empty or not whole blocks or its padding is wrong, or in GCM it has fewer
    /// than 16 octets or a wrong tag. The only refusal is `Memory`. Steps for Triple DES as `decrypt_pbe_counted` takes them; for
    /// PBES2 one for each output of the pseudorandom function.
    ///
    /// Caller: the ciphertext has fewer than 2^32 octets, the password fewer than 2^57, the salt fewer than 2^59.
    pub fn decrypt_text_counted<L: Ledger>(
        &self,
        alloc: Global,
        ciphertext: &[u8],
        password: &str,
        steps: &mut Steps<L>,
    ) -> Result<Option<Octets>, Error>
        requires ciphertext { length ciphertext.now < 2 ^ 32 }
        requires password { length password.now < 2 ^ 57 }
        requires salt { length (salt_of self.now) < 2 ^ 59 }
        ensures value { IfOk result (λ m. m ≡ unlock self.now password.now ciphertext.now) }
        ensures short { IfOk result
            (λ m. IfSome m (λ text. length text ≤ length ciphertext.now)) }
        ensures err { IfErr result (λ e. e ≡ Error.Memory) }
        ensures steps { OnOk result (steps.new ≡ steps.old + taken self.now ciphertext.now) }
        ensures at_most { (steps.old ≤ steps.new)
            × (steps.new ≤ steps.old + taken self.now ciphertext.now) }
    {
        let mut text = Octets::from_slice(alloc, ciphertext)?;
        match self
            .view()
            .decrypt_in_place_counted(alloc, password, text.as_mut_slice(), steps)?
        {
            Some(len) => {
                text.truncate(len);
                Ok(Some(text))
            }
            None => Ok(None),
        }
    }

    /// `decrypt_text_counted` where nothing is counted. Caller: as there.
    #[tactic(auto, unfolding(crate::specs::AlgorithmIdentifier::unlock))]
    pub fn decrypt_text(
        &self,
        alloc: Global,
        ciphertext: &[u8],
        password: &str,
    ) -> Result<Option<Octets>, Error>
        requires ciphertext { length ciphertext.now < 2 ^ 32 }
        requires password { length password.now < 2 ^ 57 }
        requires salt { length (salt_of self.now) < 2 ^ 59 }
        ensures value { IfOk result (λ m. m ≡ unlock self.now password.now ciphertext.now) }
        ensures short { IfOk result
            (λ m. IfSome m (λ text. length text ≤ length ciphertext.now)) }
        ensures err { IfErr result (λ e. e ≡ Error.Memory) }
    {
        match self {
            AlgorithmIdentifier::Pbes2(parameters) => {
                opened_pbes2(alloc, parameters, ciphertext, password.as_bytes())
            }
            AlgorithmIdentifier::PbeWithSHAAnd3KeyTripleDESCBC(_) => {
                let units = bmp_string(alloc, password)?;
                self.decrypt_pbe(alloc, ciphertext, units.as_slice())
            }
            AlgorithmIdentifier::Sha1
            | AlgorithmIdentifier::Sha256
            | AlgorithmIdentifier::PbewithSHAAnd40BitRC2CBC(_)
            | AlgorithmIdentifier::OtherAlg(_) => Ok(None),
        }
    }

    /// The ciphertext of a text under Triple DES and a password, which comes as `bmp_string` gives it: the one text that
    /// `decrypt_pbe` opens to it. `TooLong` exactly where it would have more than 2^32 - 1 octets; the other refusal is
    /// `Memory`.
    ///
    /// Caller: the algorithm is Triple DES with a count of at least 1; password and salt have fewer than 2^59 octets each.
    #[tactic(auto, unfolding(crate::specs::AlgorithmIdentifier::unlock_pbe))]
    pub fn encrypt_pbe(
        &self,
        alloc: Global,
        plaintext: &[u8],
        password: &[u8],
    ) -> Result<Octets, Error>
        requires scheme { is_triple_des self.now ≡ true }
        requires rounds { 1 ≤ count self.now }
        requires password { length password.now < 2 ^ 59 }
        requires salt { length (salt_of self.now) < 2 ^ 59 }
        ensures ok { IfOk result (IsSealed (unlock_pbe self.now password.now) plaintext.now) }
        ensures size { IfOk result (λ c. length c ≡ ciphertext_length (length plaintext.now)) }
        ensures err { IfErr result
            (RefusesToSeal (unlock_pbe self.now password.now) plaintext.now) }
        ensures too_long { IfErr result (λ e. e ≡ Error.TooLong
            → 2 ^ 32 ≤ ciphertext_length (length plaintext.now)) }
    {
        match self {
            AlgorithmIdentifier::PbeWithSHAAnd3KeyTripleDESCBC(params) => {
                fitting(seal_blocks(alloc, params, password, plaintext)?)
            }
            AlgorithmIdentifier::Sha1
            | AlgorithmIdentifier::Sha256
            | AlgorithmIdentifier::PbewithSHAAnd40BitRC2CBC(_)
            | AlgorithmIdentifier::Pbes2(_)
            | AlgorithmIdentifier::OtherAlg(_) => unreachable!(),
        }
    }

    /// The ciphertext of a text under a password: the one text that `decrypt_text_counted` opens to it. Triple DES takes the
    /// password as `bmp_string` gives it, PBES2 as its UTF-8. `TooLong` exactly where it would have more than 2^32 - 1 octets;
    /// the other refusal is `Memory`. Salt and initialization vector are for one text alone: draw new ones for each.
    ///
    /// Caller: the algorithm can be opened, with a count of at least 1, and is not PBES2 with DES; the password has fewer than
    /// 2^57 octets, the salt of Triple DES fewer than 2^59.
    #[tactic(auto, unfolding(crate::specs::AlgorithmIdentifier::unlock))]
    pub fn encrypt_text(
        &self,
        alloc: Global,
        plaintext: &[u8],
        password: &str,
    ) -> Result<Octets, Error>
        requires scheme { openable self.now ≡ true }
        requires cipher { ¬ IsUnderDes self.now }
        requires rounds { 1 ≤ count self.now }
        requires password { length password.now < 2 ^ 57 }
        requires salt { length (salt_of self.now) < 2 ^ 59 }
        ensures ok { IfOk result (IsSealed (unlock self.now password.now) plaintext.now) }
        ensures err { IfErr result (RefusesToSeal (unlock self.now password.now) plaintext.now) }
    {
        match self {
            AlgorithmIdentifier::PbeWithSHAAnd3KeyTripleDESCBC(_) => {
                let units = bmp_string(alloc, password)?;
                self.encrypt_pbe(alloc, plaintext, units.as_slice())
            }
            AlgorithmIdentifier::Pbes2(parameters) => {
                fitting(seal_pbes2(alloc, parameters, password.as_bytes(), plaintext)?)
            }
            AlgorithmIdentifier::Sha1
            | AlgorithmIdentifier::Sha256
            | AlgorithmIdentifier::PbewithSHAAnd40BitRC2CBC(_)
            | AlgorithmIdentifier::OtherAlg(_) => unreachable!(),
        }
    }
}

impl AlgorithmIdentifier {
    /// Writes the algorithm. `Malformed` only where its parameters cannot be written: those of another algorithm are
    /// not one whole element, or those of PBES2 are none. `Overlength` only where the text has more than 2^32 - 1
    /// octets, `Memory` when out of memory, else the writer's refusals; a front of the text was written then.
    pub fn write<W: Writer>(&self, alloc: Global, w: &mut W) -> Result<(), asn1_core::Error>
        ensures writes { WritesText W.sink (WritableAlgorithm self.now)
            (algorithm_canon self.now) w.old result w.new }
        ensures short { OnOk result (IsShort (algorithm_canon self.now)) }
        ensures lawful { OnOk result (WritableAlgorithm self.now) }
    {
        write_row(self, alloc, w)
    }
}
