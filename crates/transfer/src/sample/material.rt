//! What is generated for one key.
ghost use Rattle.std.specs.Prelude.{◌≡◌, ◌≤◌, ◌-◌, ◌++◌, length, take};
ghost use Rattle.transfer.specs.Material.{IsMaterial};
ghost use Rattle.transfer.specs.Sample.{behind_salt, octets_behind, state_behind};

use crate::sample::generator::Generator;

/// A certificate: a SEQUENCE of one OCTET STRING of 16 octets, which are generated.
const CERTIFICATE: [u8; 20] = [
    0x30, 0x12, 0x04, 0x10, 0, 0, 0, 0, 0, 0, 0, 0, 0, 0, 0, 0, 0, 0, 0, 0,
];

/// A private key of Ed25519 (RFC 8410 section 7), whose 32 octets are generated.
const KEY: [u8; 48] = [
    0x30, 0x2e, 0x02, 0x01, 0x00, 0x30, 0x05, 0x06, 0x03, 0x2b, 0x65, 0x70, 0x04, 0x22, 0x04, 0x20,
    0, 0, 0, 0, 0, 0, 0, 0, 0, 0, 0, 0, 0, 0, 0, 0, 0, 0, 0, 0, 0, 0, 0, 0, 0, 0, 0, 0, 0, 0, 0, 0,
];

/// The octets for one key.
#[derive(Drop)]
pub(crate) struct Material {
    pub(crate) certificate: [u8; 20],
    pub(crate) key: [u8; 48],
    /// The salt that the key is encrypted under.
    pub(crate) salt: [u8; 8],
}

/// Fills the octets from this place on.
fn fill_behind(generator: &mut Generator, octets: &mut [u8], front: usize)
    requires { front ≤ length octets.old }
    ensures octets { octets.new ≡ take front octets.old
        ++ octets_behind generator.old.state (length octets.old - front) }
    ensures state { generator.new.state
        ≡ state_behind generator.old.state (length octets.old - front) }
{
    generator.fill(&mut octets[front..]);
}

/// Generates the octets for the next key.
pub(crate) fn next_material(generator: &mut Generator) -> Material
    ensures is { IsMaterial generator.old.state result }
    ensures state { generator.new.state ≡ behind_salt generator.old.state }
{
    let mut certificate = CERTIFICATE;
    let mut key = KEY;
    let mut salt = [0; 8];
    fill_behind(generator, &mut certificate, 4);
    fill_behind(generator, &mut key, 16);
    generator.fill(&mut salt);
    Material {
        certificate,
        key,
        salt,
    }
}
