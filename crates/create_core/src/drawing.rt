//! The octets that are drawn for a store.
ghost use Rattle.std.specs.Io.KnownBytes.{Consumes};
ghost use Rattle.std.specs.Prelude.{◌≡◌, ◌≤◌, ◌<◌, ◌*◌, All, length, IfOk, IfErr, OnOk};
ghost use Rattle.std.specs.Result.{IsErrOf};
ghost use Rattle.sealing_core.specs.Drawn.{AreOf16, octets_of};
ghost use Rattle.create_core.specs.Parts.{FailsToDraw};

use crate::error::CreateError;
use asn1_core::Items;
use octet_core::Draw;
use sealing_core::{DrawError, IvAndSalt, draw_each};
use std::alloc::Global;

/// Draws for this number of parts, in order.
pub(crate) fn draw_parts<D: Draw>(
    alloc: Global,
    number: usize,
    draw: &mut D,
) -> Result<Items<IvAndSalt>, CreateError>
    ensures count { D.faults draw.old ≤ D.faults draw.new }
    ensures no_fault { OnOk result (D.faults draw.new ≡ D.faults draw.old) }
    ensures last { D.faults draw.old < D.faults draw.new → IsErrOf result CreateError.Rng }
    ensures lengths { IfOk result (λ drawn. All AreOf16 drawn × (length drawn ≡ number)) }
    ensures drawn { IfOk result
        (λ drawn. Consumes (D.left draw.old) (D.left draw.new) (octets_of drawn)) }
    ensures cause { IfErr result
        (FailsToDraw (D.faults draw.old) (D.faults draw.new) (D.left draw.old) (32 * number)) }
{
    match draw_each(alloc, number, draw) {
        Ok(drawn) => Ok(drawn),
        Err(DrawError::Rng) => Err(CreateError::Rng),
        Err(DrawError::Memory) => Err(CreateError::Memory),
    }
}

/// Draws the salt of the MAC.
pub(crate) fn draw_salt<D: Draw>(draw: &mut D) -> Result<[u8; 8], CreateError>
    ensures long { IfOk result (λ salt. length salt ≡ 8) }
    ensures count { D.faults draw.old ≤ D.faults draw.new }
    ensures no_fault { OnOk result (D.faults draw.new ≡ D.faults draw.old) }
    ensures last { D.faults draw.old < D.faults draw.new → IsErrOf result CreateError.Rng }
    ensures drawn { IfOk result (λ salt. Consumes (D.left draw.old) (D.left draw.new) salt) }
    ensures cause { IfErr result
        (FailsToDraw (D.faults draw.old) (D.faults draw.new) (D.left draw.old) 8) }
{
    let mut salt = [0u8; 8];
    match draw.fill(&mut salt) {
        Ok(()) => Ok(salt),
        Err(_) => Err(CreateError::Rng),
    }
}
