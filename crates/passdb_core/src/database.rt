//! The password file.
ghost use Rattle.std.specs.Prelude.{◌≡◌, ◌<◌, ◌≤◌, ◌+◌, ◌*◌, ◌∷◌, [], ◌++◌, IfOk, IfErr, OnOk, map, length};
ghost use Rattle.std.specs.Bool.{MatchBool};
ghost use Rattle.std.specs.Result.{IsErrOf};
ghost use Rattle.std.specs.String.{string_bytes};
ghost use Rattle.frame.specs.DueText.{joined};
ghost use Rattle.passdb_core.specs.Asked.{command_in};
ghost use Rattle.passdb_core.specs.Calls.{CannotDraw, Does, FailsToDraw, MalformedOnly, RefusedBy, Renews, Runs, RunsShort};
ghost use Rattle.passdb_core.specs.Commands.{add, change, check, does_to, draws, entries_after, remove};
ghost use Rattle.passdb_core.specs.Entries.{Above, AreEntries, IsFile, IsNamed, IsNoFile, line, put, text_of};
ghost use Rattle.passdb_core.specs.Entry.{rounds_limit};

use crate::command::Command;
use crate::entry::Entry;
use crate::error::DbError;
use crate::file::read_front;
use crate::reply::Reply;
use octet_core::{Draw, Items, Octets, Text};
use phc_core::Ident;
use std::alloc::Global;
use std::cmp::Ordering;
use std::collections::BTreeMap;
use std::marker::Model;
use std::sync::ledger::Ledger;
use steps::Steps;

/// A password file: an entry for each name, and the rounds of fresh entries.
///
/// A call that fails leaves the file as it was. `draw` gives the octets of salts, 16 for each entry
/// that is made; where it fails the error is `Rng`. `steps` counts the calls of the hash function's
/// HMAC.
#[derive(Drop)]
pub struct Db {
    entries: BTreeMap<Ident, Entry>,
    rounds: u32,
}

impl Model for Db {
    ghost use Rattle.passdb_core.specs.Entries.{Book, IsBook};

    ghost Value = { Book };

    ghost view = { λ d. record { entries = d.entries.entries; rounds = d.rounds } };

    ghost invariant = { λ d. IsBook (record { entries = d.entries.entries; rounds = d.rounds }) };
}

impl Db {
    /// Reads a password file: lines `NAME:HASH`, a line feed after each, the names ascending by
    /// octets. A name is 1 to 32 characters of `a-z0-9-`; HASH is a PHC string by `pbkdf2-sha256`
    /// or `pbkdf2-sha512`, with salt and hash and at most `ROUNDS_LIMIT` rounds. The empty text is
    /// the file with no names.
    ///
    /// `rounds` is for the entries that are made later: 1,000 to `ROUNDS_LIMIT`.
    ///
    /// `Malformed` exactly where the text is not such a file; `Memory` where out of memory.
    pub fn parse(alloc: Global, text: &str, rounds: u32) -> Result<Db, DbError>
        requires some { 1000 ≤ rounds }
        requires few { rounds ≤ rounds_limit }
        ensures ok { IfOk result (λ d. IsFile text.now d.entries × (d.rounds ≡ rounds)) }
        ensures err { IfErr result (MalformedOnly (IsNoFile text.now)) }
    {
        let mut db = Db::empty(alloc, rounds);
        let rest = read_front(&mut db, text.as_bytes())?;
        if !rest.is_empty() {
            return Err(DbError::Malformed);
        }
        Ok(db)
    }

    /// A file with no entries. Caller: the rounds are 1,000 to `ROUNDS_LIMIT`.
    pub(crate) fn empty(alloc: Global, rounds: u32) -> Db
        requires some { 1000 ≤ rounds }
        requires few { rounds ≤ rounds_limit }
        ensures entries { result.entries ≡ [] }
        ensures rounds { result.rounds ≡ rounds }
    {
        Db {
            entries: BTreeMap::new(alloc),
            rounds,
        }
    }

    /// Gives the name a fresh entry of the password, under 16 drawn octets.
    fn renew<D: Draw, L: Ledger>(
        &mut self,
        draw: &mut D,
        name: &Ident,
        password: &[u8],
        steps: &mut Steps<L>,
    ) -> Result<(), DbError>
        ensures rounds { self.new.rounds ≡ self.old.rounds }
        ensures made { OnOk result (Renews self.old name.now password.now (D.left draw.old)
            (D.left draw.new) self.new.entries) }
        ensures steps { OnOk result (steps.new ≡ steps.old + self.old.rounds) }
        ensures kept { IfErr result (λ _. self.new ≡ self.old) }
        ensures cause { IfErr result (RefusedBy (FailsToDraw (D.left draw.old) (D.left draw.new)
            (D.faults draw.old) (D.faults draw.new))) }
        ensures count { D.faults draw.old ≤ D.faults draw.new }
        ensures no_fault { OnOk result (D.faults draw.new ≡ D.faults draw.old) }
        ensures last { D.faults draw.old < D.faults draw.new → IsErrOf result DbError.Rng }
        ensures at_most { (steps.old ≤ steps.new) × (steps.new ≤ steps.old + rounds_limit) }
    {
        let mut salt = [0u8; 16];
        match draw.fill(&mut salt) {
            Ok(()) => {}
            Err(_) => return Err(DbError::Rng),
        }
        let entry = Entry::fresh(self.rounds, password, &salt, steps);
        match self.entries.insert(*name, entry) {
            Ok(_) => Ok(()),
            Err(_) => Err(DbError::Memory),
        }
    }

    /// Adds a name with a password. `Exists` where the file has the name, and then nothing is drawn
    /// or changed, else `Added`.
    ///
    /// `Rng` where the draw fails; `Memory` where out of memory.
    pub fn add<D: Draw, L: Ledger>(
        &mut self,
        draw: &mut D,
        name: &Ident,
        password: &[u8],
        steps: &mut Steps<L>,
    ) -> Result<Reply, DbError>
        ensures rounds { self.new.rounds ≡ self.old.rounds }
        ensures done { IfOk result (λ y. Does self.old (add name.now password.now) (D.left draw.old)
            (D.left draw.new) steps.old steps.new y self.new.entries) }
        ensures kept { IfErr result (λ _. self.new ≡ self.old) }
        ensures cause { IfErr result (RefusedBy (CannotDraw self.old (add name.now password.now)
            (D.left draw.old) (D.left draw.new) (D.faults draw.old) (D.faults draw.new))) }
        ensures undrawn { draws (does_to self.old.rounds self.old.entries
            (add name.now password.now)).change ≡ 0 → draw.new ≡ draw.old }
        ensures count { D.faults draw.old ≤ D.faults draw.new }
        ensures no_fault { OnOk result (D.faults draw.new ≡ D.faults draw.old) }
        ensures last { D.faults draw.old < D.faults draw.new → IsErrOf result DbError.Rng }
        ensures at_most { (steps.old ≤ steps.new) × (steps.new ≤ steps.old + 3 * rounds_limit) }
    {
        if self.entries.contains_key(name) {
            return Ok(Reply::Exists);
        }
        self.renew(draw, name, password, steps)?;
        Ok(Reply::Added)
    }

    /// Tests a password. `Unknown` where the file does not have the name, `Wrong` where the
    /// password is not that of the name, and else `Good`, or `Renewed` where the entry had fewer
    /// rounds than fresh ones have: then the name has a fresh entry of the same password, and the
    /// file is to be written again.
    ///
    /// `Rng` where the draw fails, which is tried only where the reply would be `Renewed`: the
    /// password was right. `Memory` where out of memory.
    pub fn check<D: Draw, L: Ledger>(
        &mut self,
        draw: &mut D,
        name: &Ident,
        password: &[u8],
        steps: &mut Steps<L>,
    ) -> Result<Reply, DbError>
        ensures rounds { self.new.rounds ≡ self.old.rounds }
        ensures done { IfOk result (λ y. Does self.old (check name.now password.now)
            (D.left draw.old)
            (D.left draw.new) steps.old steps.new y self.new.entries) }
        ensures kept { IfErr result (λ _. self.new ≡ self.old) }
        ensures cause { IfErr result (RefusedBy (CannotDraw self.old (check name.now password.now)
            (D.left draw.old) (D.left draw.new) (D.faults draw.old) (D.faults draw.new))) }
        ensures undrawn { draws (does_to self.old.rounds self.old.entries
            (check name.now password.now)).change ≡ 0 → draw.new ≡ draw.old }
        ensures count { D.faults draw.old ≤ D.faults draw.new }
        ensures no_fault { OnOk result (D.faults draw.new ≡ D.faults draw.old) }
        ensures last { D.faults draw.old < D.faults draw.new → IsErrOf result DbError.Rng }
        ensures at_most { (steps.old ≤ steps.new) × (steps.new ≤ steps.old + 3 * rounds_limit) }
    {
        let Some(entry) = self.entries.get(name) else {
            return Ok(Reply::Unknown);
        };
        let rounds = entry.rounds();
        if !entry.is_right(password, steps) {
            return Ok(Reply::Wrong);
        }
        if rounds >= self.rounds {
            return Ok(Reply::Good);
        }
        self.renew(draw, name, password, steps)?;
        Ok(Reply::Renewed)
    }

    /// Gives a name a new password, where the old one is right. `Unknown` where the file does not
    /// have the name, `Wrong` where the old password is not that of the name, else `Changed`.
    ///
    /// `Rng` where the draw fails; `Memory` where out of memory.
    pub fn change<D: Draw, L: Ledger>(
        &mut self,
        draw: &mut D,
        name: &Ident,
        old: &[u8],
        new: &[u8],
        steps: &mut Steps<L>,
    ) -> Result<Reply, DbError>
        ensures rounds { self.new.rounds ≡ self.old.rounds }
        ensures done { IfOk result (λ y. Does self.old (change name.now old.now new.now)
            (D.left draw.old) (D.left draw.new) steps.old steps.new y self.new.entries) }
        ensures kept { IfErr result (λ _. self.new ≡ self.old) }
        ensures cause { IfErr result (RefusedBy (CannotDraw self.old
            (change name.now old.now new.now)
            (D.left draw.old) (D.left draw.new) (D.faults draw.old) (D.faults draw.new))) }
        ensures undrawn { draws (does_to self.old.rounds self.old.entries
            (change name.now old.now new.now)).change ≡ 0 → draw.new ≡ draw.old }
        ensures count { D.faults draw.old ≤ D.faults draw.new }
        ensures no_fault { OnOk result (D.faults draw.new ≡ D.faults draw.old) }
        ensures last { D.faults draw.old < D.faults draw.new → IsErrOf result DbError.Rng }
        ensures at_most { (steps.old ≤ steps.new) × (steps.new ≤ steps.old + 3 * rounds_limit) }
    {
        let Some(entry) = self.entries.get(name) else {
            return Ok(Reply::Unknown);
        };
        if !entry.is_right(old, steps) {
            return Ok(Reply::Wrong);
        }
        self.renew(draw, name, new, steps)?;
        Ok(Reply::Changed)
    }

    /// Removes a name. `Unknown` where the file does not have it, else `Removed`.
    pub fn remove(&mut self, name: &Ident) -> Reply
        ensures rounds { self.new.rounds ≡ self.old.rounds }
        ensures reply { result ≡ (does_to self.old.rounds self.old.entries
            (remove name.now)).reply }
        ensures entries { self.new.entries
            ≡ entries_after self.old.rounds self.old.entries (remove name.now) [] }
    {
        match self.entries.remove(name) {
            Some(_) => Reply::Removed,
            None => Reply::Unknown,
        }
    }

    /// Does a command.
    fn obey<D: Draw, L: Ledger>(
        &mut self,
        draw: &mut D,
        command: &Command<'_>,
        steps: &mut Steps<L>,
    ) -> Result<Reply, DbError>
        ensures rounds { self.new.rounds ≡ self.old.rounds }
        ensures done { IfOk result (λ y. Does self.old (command_in command.now) (D.left draw.old)
            (D.left draw.new) steps.old steps.new y self.new.entries) }
        ensures cause { IfErr result (RefusedBy (CannotDraw self.old (command_in command.now)
            (D.left draw.old) (D.left draw.new) (D.faults draw.old) (D.faults draw.new))) }
        ensures count { D.faults draw.old ≤ D.faults draw.new }
        ensures no_fault { OnOk result (D.faults draw.new ≡ D.faults draw.old) }
        ensures last { D.faults draw.old < D.faults draw.new → IsErrOf result DbError.Rng }
        ensures at_most { (steps.old ≤ steps.new) × (steps.new ≤ steps.old + 3 * rounds_limit) }
    {
        match command {
            Command::Add { name, password } => self.add(draw, name, password, steps),
            Command::Check { name, password } => self.check(draw, name, password, steps),
            Command::Change { name, old, new } => self.change(draw, name, old, new, steps),
            Command::Remove { name } => Ok(self.remove(name)),
        }
    }

    /// Does commands, one after the other.
    pub(crate) fn obey_all<D: Draw, L: Ledger>(
        &mut self,
        alloc: Global,
        draw: &mut D,
        commands: &[Command<'_>],
        steps: &mut Steps<L>,
    ) -> Result<Items<Reply>, DbError>
        ensures done { IfOk result (λ ys. Runs self.old (map command_in commands.now)
            (D.left draw.old) (D.left draw.new) steps.old steps.new ys self.new.entries) }
        ensures cause { IfErr result (RefusedBy (RunsShort self.old (map command_in commands.now)
            (D.left draw.old) (D.left draw.new) (D.faults draw.old) (D.faults draw.new))) }
        ensures count { D.faults draw.old ≤ D.faults draw.new }
        ensures no_fault { OnOk result (D.faults draw.new ≡ D.faults draw.old) }
        ensures last { D.faults draw.old < D.faults draw.new → IsErrOf result DbError.Rng }
        ensures at_most { (steps.old ≤ steps.new)
            × (steps.new ≤ steps.old + 3 * rounds_limit * length commands.now) }
    {
        let mut replies = Items::new(alloc);
        for command in commands {
            let reply = self.obey(draw, command, steps)?;
            match replies.push(reply) {
                Ok(()) => {}
                Err(_) => return Err(DbError::Memory),
            }
        }
        Ok(replies)
    }

    /// The names, ascending by octets. The only error is `Memory`.
    pub fn names(&self, alloc: Global) -> Result<Items<Ident>, DbError>
        ensures ok { IfOk result (λ names. names ≡ map (λ e. e.0) self.now.entries) }
        ensures err { IfErr result (λ e. e ≡ DbError.Memory) }
    {
        let mut names = Items::new(alloc);
        for (name, _) in &self.entries {
            names.push(*name)?;
        }
        Ok(names)
    }

    /// The text of the file, which `parse` reads as the same entries. The only error is `Memory`.
    pub fn to_text(&self, alloc: Global) -> Result<Text, DbError>
        ensures ok { IfOk result (λ t. IsFile t self.now.entries) }
        ensures err { IfErr result (λ e. e ≡ DbError.Memory) }
    {
        let mut text = String::new(alloc);
        for (name, entry) in &self.entries {
            push_line(alloc, &mut text, name, entry)?;
        }
        Ok(Text::from_string(text))
    }

    /// Adds the file's lines. The only error is out of memory; some lines may have been added then.
    pub(crate) fn add_lines(&self, alloc: Global, lines: &mut Items<Octets>) -> Result<(), DbError>
        ensures are { OnOk result (AreEntries self.now.entries) }
        ensures ok { OnOk result (joined lines.new ≡ joined lines.old ++ text_of self.now.entries) }
        ensures err { IfErr result (λ e. e ≡ DbError.Memory) }
    {
        for (name, entry) in &self.entries {
            let mut line = String::new(alloc);
            push_line(alloc, &mut line, name, entry)?;
            lines.push(Octets::from_vec(line.into_bytes()))?;
        }
        Ok(())
    }

    /// Whether the name is above those of the entries.
    fn is_above(&self, name: &Ident) -> bool
        ensures { MatchBool result (Above self.now.entries name.now)
            (Above self.now.entries name.now → ⊥) }
    {
        match self.entries.last_key_value() {
            None => true,
            Some((last, _)) => match last.cmp(name) {
                Ordering::Less => true,
                _ => false,
            },
        }
    }

    /// Adds an entry at the end. `Malformed` exactly where its name is not above those of the
    /// entries.
    #[tactic(auto, using(crate::proofs::LastEntry::insert_last))]
    pub(crate) fn put_last(&mut self, name: &Ident, entry: &Entry) -> Result<(), DbError>
        ensures rounds { self.new.rounds ≡ self.old.rounds }
        ensures put { OnOk result
            (self.new.entries ≡ self.old.entries ++ (name.now, entry.now) ∷ []) }
        ensures above { OnOk result (Above self.old.entries name.now) }
        ensures refused { IfErr result (MalformedOnly (Above self.old.entries name.now → ⊥)) }
    {
        if !self.is_above(name) {
            return Err(DbError::Malformed);
        }
        self.put(name, entry)
    }

    /// Gives the name this entry. The only error is out of memory.
    fn put(&mut self, name: &Ident, entry: &Entry) -> Result<(), DbError>
        ensures rounds { self.new.rounds ≡ self.old.rounds }
        ensures put { OnOk result (self.new.entries ≡ put self.old.entries name.now entry.now) }
        ensures err { IfErr result (λ e. e ≡ DbError.Memory) }
    {
        match self.entries.insert(*name, *entry) {
            Ok(_) => Ok(()),
            Err(_) => Err(DbError::Memory),
        }
    }
}

/// Adds an entry's line to the text. The only error is out of memory.
fn push_line(alloc: Global, text: &mut String, name: &Ident, entry: &Entry) -> Result<(), DbError>
    ensures is { OnOk result (IsNamed (name.now, entry.now)) }
    ensures ok { OnOk result (string_bytes text.new
        ≡ string_bytes text.old ++ line (name.now, entry.now)) }
    ensures err { IfErr result (λ e. e ≡ DbError.Memory) }
{
    let written = entry.to_text(alloc)?;
    text.push_str(name.as_str())?;
    text.push(':')?;
    text.push_str(written.as_str())?;
    text.push('\n')?;
    Ok(())
}
