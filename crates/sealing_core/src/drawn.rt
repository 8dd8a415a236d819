//! What is drawn for the parts.
ghost use Rattle.std.specs.Io.KnownBytes.{Consumes};
ghost use Rattle.std.specs.Prelude.{◌≡◌, ◌≤◌, ◌<◌, ◌*◌, ◌++◌, List, All, length, IfOk, IfErr, OnOk};
ghost use Rattle.std.specs.Result.{IsErrOf};
ghost use Rattle.sealing_core.specs.Drawn.{AreOf16, FailsToDraw, octets_of};

use crate::error::DrawError;
use asn1_core::Items;
use octet_core::Draw;
use pkcs5::pbes2::Salt;
use std::alloc::Global;

/// What is drawn for a part under AES in CBC mode and PBKDF2: an IV of 16 octets (RFC 8018 appendix B.2.5) and a salt of 16.
#[derive(Clone, Copy, Drop)]
pub struct IvAndSalt {
    pub iv: [u8; 16],
    pub salt: Salt,
}

/// Draws 16 octets as IV, and the next 16 as salt.
fn draw_one<D: Draw>(draw: &mut D) -> Result<IvAndSalt, DrawError>
    ensures count { D.faults draw.old ≤ D.faults draw.new }
    ensures no_fault { OnOk result (D.faults draw.new ≡ D.faults draw.old) }
    ensures last { D.faults draw.old < D.faults draw.new → IsErrOf result DrawError.Rng }
    ensures lengths { IfOk result AreOf16 }
    ensures drawn { IfOk result
        (λ d. Consumes (D.left draw.old) (D.left draw.new) (d.iv ++ d.salt)) }
    ensures cause { IfErr result
        (FailsToDraw (D.faults draw.old) (D.faults draw.new) (D.left draw.old) 32) }
{
    let mut iv = [0u8; 16];
    let mut octets = [0u8; 16];
    match draw.fill(&mut iv) {
        Ok(()) => {}
        Err(_) => return Err(DrawError::Rng),
    }
    match draw.fill(&mut octets) {
        Ok(()) => {}
        Err(_) => return Err(DrawError::Rng),
    }
    match Salt::new(&octets) {
        Ok(salt) => Ok(IvAndSalt { iv, salt }),
        Err(_) => unreachable!(),
    }
}

/// Draws 32 octets for each of this number of parts, in order: the IV, and then the salt.
///
/// `Rng` comes exactly where a draw failed, which is then the last: where the octets to come are known, exactly where fewer are left
/// than 32 for each part, unless there is no memory before that.
pub fn draw_each<D: Draw>(
    alloc: Global,
    number: usize,
    draw: &mut D,
) -> Result<Items<IvAndSalt>, DrawError>
    ensures count { D.faults draw.old ≤ D.faults draw.new }
    ensures no_fault { OnOk result (D.faults draw.new ≡ D.faults draw.old) }
    ensures last { D.faults draw.old < D.faults draw.new → IsErrOf result DrawError.Rng }
    ensures lengths { IfOk result (λ drawn. All AreOf16 drawn × (length drawn ≡ number)) }
    ensures drawn { IfOk result
        (λ drawn. Consumes (D.left draw.old) (D.left draw.new) (octets_of drawn)) }
    ensures cause { IfErr result
        (FailsToDraw (D.faults draw.old) (D.faults draw.new) (D.left draw.old) (32 * number)) }
{
    let mut drawn = Items::new(alloc);
    for _place in 0..number {
        // The search proves the loop in this form alone.
        match draw_one(draw) {
            Ok(one) => drawn.push(one)?,
            Err(e) => return Err(e),
        }
    }
    Ok(drawn)
}
