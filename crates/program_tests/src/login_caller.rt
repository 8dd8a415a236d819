//! A caller of `passdb_core`, as its README shows it: a login.
ghost use Rattle.std.specs.Prelude.{◌≡◌, ◌⊎◌, ◌<◌, IfOk, Some, true};
ghost use Rattle.std.specs.Bool.{Decides};
ghost use Rattle.passdb_core.specs.declared.reply.Reply as Reply;
ghost use Rattle.passdb_core.specs.Entries.{at};
ghost use Rattle.passdb_core.specs.Entry.{Entry, right};

use octet_core::{Draw, DrawnBytes, Items, Octets};
use passdb_core::{Db, DbError, Reply};
use phc_core::Ident;
use std::alloc::Global;
use std::marker::Brand;
use std::sync::ledger::{Blank, Ledger};
use steps::Steps;

/// Whether the reply says that the password is right.
fn is_right(reply: Reply) -> bool
    ensures { Decides result ((reply ≡ Reply.Good) ⊎ (reply ≡ Reply.Renewed)) }
{
    matches!(reply, Reply::Good | Reply::Renewed)
}

/// Whether this is the password of the name: exactly where the name has an entry that the password
/// agrees with.
fn is_login<D: Draw, L: Ledger>(
    db: &mut Db,
    draw: &mut D,
    name: &Ident,
    password: &[u8],
    steps: &mut Steps<L>,
) -> Result<bool, DbError>
    ensures { IfOk result (λ b. Decides b ((e : Entry)
        × (at db.old.entries name.now ≡ Some e) × (right e password.now ≡ true))) }
{
    let reply = db.check(draw, name, password, steps)?;
    Ok(is_right(reply))
}

/// A file with an entry that the Rust crate `pbkdf2` makes.
const ANN: &str =
    "ann:$pbkdf2-sha256$i=4096,l=40$c2FsdFNBTFRzYWx0U0FMVHNhbHRTQUxUc2FsdFNBTFRzYWx0$NIyJ28vTKy8y2BS4EW6EzysXNH68GAAYHE4qH7jdU+HGNVGMfaxH6Q\n";

/// Whether the password logs in under the name `ann`.
fn logs_in_counted<L: Ledger>(alloc: Global, password: &[u8], blank: Blank) -> Result<bool, DbError>
    requires name { blank.name ≡ L.name }
    requires parts { blank.parts ≡ L.parts }
    requires some { 0 < blank.parts }
{
    let mut steps = Steps::<L>::open(blank);
    let mut draw = DrawnBytes::new(Octets::from_slice(alloc, b"0123456789abcdef")?);
    let mut db = Db::parse(alloc, ANN, 5000)?;
    let Ok(name) = Ident::new("ann") else {
        return Ok(false);
    };
    is_login(&mut db, &mut draw, &name, password, &mut steps)
}

/// The same with a counter of steps of its own.
fn logs_in(alloc: Global, password: &[u8]) -> Result<bool, DbError> {
    logs_in_counted::<Brand>(alloc, password, Blank::new(1))
}

#[test]
fn the_right_password_logs_in(rt: HostRuntime) {
    let right = logs_in(rt.alloc(), b"passwordPASSWORDpassword");
    let wrong = logs_in(rt.alloc(), b"passwordPASSWORDpassworD");
    assert!(rt; right == Ok(true) && wrong == Ok(false));
}

/// The names of a file that is read, changed, written and read again.
fn names_again(alloc: Global) -> Result<Items<Ident>, DbError> {
    let mut db = Db::parse(alloc, ANN, 1000)?;
    let Ok(name) = Ident::new("bob") else {
        return Err(DbError::Malformed);
    };
    let _ = db.remove(&name);
    let text = db.to_text(alloc)?;
    Db::parse(alloc, text.as_str(), 1000)?.names(alloc)
}

#[test]
fn a_file_is_written_and_read_again(rt: HostRuntime) {
    let names = names_again(rt.alloc()).expect(&rt, "names");
    assert!(rt; names.len() == 1 && names.as_slice()[0].as_str() == "ann");
}
