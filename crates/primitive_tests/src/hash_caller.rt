//! A caller of the crate, as `README.md` shows it.
ghost use Rattle.std.specs.Prelude.{IsTrue};
ghost use Rattle.pbkdf2.specs.Hashes.{Agrees};

use pbkdf2::{PasswordVerifier, Pbkdf2};
use phc_core::PasswordHash;

/// Whether this is the password of the hash.
fn is_password(password: &[u8], hash: &PasswordHash) -> bool
    ensures { IsTrue result → Agrees password.now hash.now }
{
    Pbkdf2::SHA256.verify_password(password, hash).is_ok()
}

#[test]
fn a_password_is_told_from_another(rt: HostRuntime) {
    let text =
        "$pbkdf2-sha256$i=4096,l=40$c2FsdFNBTFRzYWx0U0FMVHNhbHRTQUxUc2FsdFNBTFRzYWx0$NIyJ28vTKy8y2BS4EW6EzysXNH68GAAYHE4qH7jdU+HGNVGMfaxH6Q";
    match PasswordHash::new(text) {
        Ok(hash) => {
            assert!(rt;
                is_password(b"passwordPASSWORDpassword", &hash) && !is_password(b"password", &hash)
            );
        }
        Err(refused) => assert!(rt; false, "{refused}"),
    }
}
