//! What is done for a name, and what comes of it.
ghost use Rattle.std.specs.Prelude.{◌≡◌, ◌<◌, ◌+◌, ℕ, List, Option, IfOk, IfErr, None, Some};
ghost use Rattle.passdb_core.specs.Commands.{check, does_to};
ghost use Rattle.passdb_core.specs.Entries.{AreEntries, at};
ghost use Rattle.passdb_command.specs.Work.{IsDone, IsTested, Outcomes, changes, refusal_of, reply_of, resets};

use crate::ending::{Ending, Failure};
use command_base::Password;
use octet_core::Draw;
use passdb_core::{Db, DbError, Reply};
use phc_core::Ident;
use std::sync::ledger::{Blank, Ledger};
use steps::Steps;

/// What is done for a name, with the passwords for it.
#[derive(Drop)]
pub enum Work {
    Add(Password),
    Check(Password),
    Change(Password, Password),
    Reset(Password),
    Remove,
}

/// Gives a name another password, whatever the old one was. `Unknown` where the file does not have the name, else `Changed`.
///
/// `Rng` where the draw fails; `Memory` where out of memory. After an error the file in memory may lack the name: it is not to be
/// written.
fn reset<D: Draw, L: Ledger>(
    db: &mut Db,
    draw: &mut D,
    name: &Ident,
    password: &[u8],
    steps: &mut Steps<L>,
) -> Result<Reply, DbError>
    requires { AreEntries db.old.entries }
    ensures { IfOk result (λ y. Outcomes db.old name.now (resets db.old.rounds
        (at db.old.entries name.now) password.now) (D.left draw.old) (D.left draw.new) y
        db.new.entries) }
{
    match db.remove(name) {
        Reply::Removed => {}
        other => return Ok(other),
    }
    // The name is gone, so it is added.
    let _ = db.add(draw, name, password, steps)?;
    Ok(Reply::Changed)
}

/// Does the work on the names.
pub fn done<D: Draw, L: Ledger>(
    db: &mut Db,
    draw: &mut D,
    name: &Ident,
    work: &Work,
    blank: Blank,
) -> Result<Reply, DbError>
    requires name { blank.name ≡ L.name }
    requires parts { blank.parts ≡ L.parts }
    requires some { 0 < blank.parts }
    requires ordered { (w : List ℕ) → work.now ≡ Work.Reset w → AreEntries db.old.entries }
    ensures { IfOk result (λ y. IsDone db.old name.now work.now (D.left draw.old)
        (D.left draw.new) y db.new.entries) }
{
    let mut steps = Steps::<L>::open(blank);
    match work {
        Work::Add(password) => db.add(draw, name, password.as_str().as_bytes(), &mut steps),
        Work::Check(password) => db.check(draw, name, password.as_str().as_bytes(), &mut steps),
        Work::Change(old, new) => {
            let old = old.as_str().as_bytes();
            db.change(draw, name, old, new.as_str().as_bytes(), &mut steps)
        }
        Work::Reset(password) => reset(db, draw, name, password.as_str().as_bytes(), &mut steps),
        Work::Remove => Ok(db.remove(name)),
    }
}

/// Whether the reply changed the file, or why it did not do what was asked.
#[tactic(auto, unfolding(crate::specs::Work::changes, crate::specs::Work::refusal_of))]
pub fn is_change(reply: Reply) -> Result<bool, Failure>
    ensures ok { IfOk result (λ changed. (refusal_of reply ≡ None) × (changed ≡ changes reply)) }
    ensures err { IfErr result (λ failure. refusal_of reply ≡ Some failure.ending) }
{
    match reply {
        Reply::Added | Reply::Renewed | Reply::Changed | Reply::Removed => Ok(true),
        Reply::Good => Ok(false),
        Reply::Exists => Err(Failure::new(
            Ending::NameExists,
            "the file has the name already; change gives it another password",
        )),
        Reply::Wrong => Err(Failure::new(
            Ending::WrongPassword,
            "the password is not that of the name",
        )),
        Reply::Unknown => Err(Failure::new(Ending::NameUnknown, "the file does not have the name")),
    }
}

/// What a password came to.
#[derive(Clone, Copy)]
pub struct Finding {
    pub reply: Reply,
    /// Whether the reply is done. Only a fresh entry is not made: that of a right password, where the system gave no random octets.
    pub is_done: bool,
}

/// Tests a password. A right one has its reply also where its entry is to be made anew and the system gave no random octets.
#[tactic(auto, using(crate::proofs::Logins::drawn_is_renewed, crate::proofs::Outcomes::unknown_at_once))]
fn found<D: Draw, L: Ledger>(
    db: &mut Db,
    draw: &mut D,
    name: &Ident,
    password: &Password,
    steps: &mut Steps<L>,
) -> Result<Finding, DbError>
    ensures reply { IfOk result (λ t.
        t.reply ≡ reply_of db.old (check name.now password.now)) }
    ensures done { IfOk result (IsTested db.old name.now password.now (D.left draw.old)
        (D.left draw.new) db.new) }
    ensures at_once { IfOk result (λ t. t.reply ≡ Reply.Unknown → steps.new ≡ steps.old) }
{
    match db.check(draw, name, password.as_str().as_bytes(), steps) {
        Ok(reply) => Ok(Finding {
            reply,
            is_done: true,
        }),
        // A draw is tried only after the password was found right.
        Err(DbError::Rng) => Ok(Finding {
            reply: Reply::Renewed,
            is_done: false,
        }),
        Err(error) => Err(error),
    }
}

/// Tests a password. A right one has its reply also where its entry is to be made anew and the system gave no random octets.
pub fn tested<D: Draw, L: Ledger>(
    db: &mut Db,
    draw: &mut D,
    name: &Ident,
    password: &Password,
    blank: Blank,
) -> Result<Finding, DbError>
    requires name { blank.name ≡ L.name }
    requires parts { blank.parts ≡ L.parts }
    requires some { 0 < blank.parts }
    ensures reply { IfOk result (λ t.
        t.reply ≡ reply_of db.old (check name.now password.now)) }
    ensures done { IfOk result (IsTested db.old name.now password.now (D.left draw.old)
        (D.left draw.new) db.new) }
{
    let mut steps = Steps::<L>::open(blank);
    found(db, draw, name, password, &mut steps)
}

/// The same with as many steps for a name that the file does not have as `check` of `decoy` takes, which has an entry for it.
fn found_evenly<D: Draw, L: Ledger>(
    db: &mut Db,
    decoy: &mut Db,
    draw: &mut D,
    name: &Ident,
    password: &Password,
    steps: &mut Steps<L>,
) -> Result<Finding, DbError>
    ensures reply { IfOk result (λ t.
        t.reply ≡ reply_of db.old (check name.now password.now)) }
    ensures done { IfOk result (λ t. (rest : Option (List ℕ)) × IsTested db.old name.now
        password.now (D.left draw.old) rest db.new t) }
    ensures even { IfOk result (λ t. t.reply ≡ Reply.Unknown → steps.new ≡ steps.old
        + (does_to decoy.old.rounds decoy.old.entries (check name.now password.now)).steps) }
{
    let found = found(db, draw, name, password, steps)?;
    if let Reply::Unknown = found.reply {
        let _ = decoy.check(draw, name, password.as_str().as_bytes(), steps)?;
    }
    Ok(found)
}

/// Tests a password as `tested` does, and takes as long for a name that the file does not have as for one that it has: then the
/// password is tested in `decoy`, which has an entry for the name.
pub fn tested_evenly<D: Draw, L: Ledger>(
    db: &mut Db,
    decoy: &mut Db,
    draw: &mut D,
    name: &Ident,
    password: &Password,
    blank: Blank,
) -> Result<Finding, DbError>
    requires name { blank.name ≡ L.name }
    requires parts { blank.parts ≡ L.parts }
    requires some { 0 < blank.parts }
    ensures reply { IfOk result (λ t.
        t.reply ≡ reply_of db.old (check name.now password.now)) }
    ensures done { IfOk result (λ t. (rest : Option (List ℕ)) × IsTested db.old name.now
        password.now (D.left draw.old) rest db.new t) }
{
    let mut steps = Steps::<L>::open(blank);
    found_evenly(db, decoy, draw, name, password, &mut steps)
}
