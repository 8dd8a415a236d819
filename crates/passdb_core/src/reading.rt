//! Reading a password file and commands.
ghost use Rattle.std.specs.Prelude.{◌≡◌, ◌≢◌, ◌≤◌, ℕ, List, [], ◌∷◌, ◌++◌, All, IfOk, IfErr, MatchOption, length, map};
ghost use Rattle.std.specs.Bool.{Decides};
ghost use Rattle.phc_core.specs.Ident.{IsIdent};
ghost use Rattle.passdb_core.specs.Asked.{command_in};
ghost use Rattle.passdb_core.specs.Commands as commands;
ghost use Rattle.passdb_core.specs.Commands.{IsCommand, IsPassword, IsVisible, command_text};
ghost use Rattle.passdb_core.specs.Entry.{Entry, IsEntry, entry_text};
ghost use Rattle.passdb_core.specs.Reading.{IsCut};

use crate::command::Command;
use crate::entry::Entry;
use memchr::memchr;
use phc_core::Ident;
use std::str::from_utf8;

/// The parts of a text before and after the first place of an octet; `None` exactly where the text
/// does not have it.
pub(crate) fn cut(text: &[u8], octet: u8) -> Option<(&[u8], &[u8])>
    ensures { MatchOption result (All (λ b. b ≢ octet) text.now)
        (λ parts. IsCut octet text.now parts.0.now parts.1.now) }
{
    let Some(at) = memchr(octet, text) else {
        return None;
    };
    Some((&text[..at], &text[at + 1..]))
}

/// The name that the text is; `None` exactly where it is not a name.
pub(crate) fn name_of(text: &[u8]) -> Option<Ident>
    ensures { MatchOption result (IsIdent text.now → ⊥) (λ i. (i ≡ text.now) × IsIdent text.now) }
{
    let Ok(text) = from_utf8(text) else {
        return None;
    };
    match Ident::new(text) {
        Ok(name) => Some(name),
        Err(_) => None,
    }
}

/// The entry that the text is; `None` exactly where it is not an entry.
pub(crate) fn entry_of(text: &[u8]) -> Option<Entry>
    ensures { MatchOption result ((e : Entry) → IsEntry e → text.now ≡ entry_text e → ⊥)
        (λ e. IsEntry e × (text.now ≡ entry_text e)) }
{
    let Ok(text) = from_utf8(text) else {
        return None;
    };
    Entry::read(text)
}

/// Whether the octet may be in a password.
fn is_visible(octet: u8) -> bool
    ensures { Decides result (IsVisible octet) }
{
    matches!(octet, 33..=126)
}

/// Whether all octets may be in a password.
fn are_visible(octets: &[u8]) -> bool
    ensures { Decides result (All IsVisible octets.now) }
{
    for octet in octets {
        if !is_visible(*octet) {
            return false;
        }
    }
    true
}

/// Whether the octets are a password.
fn is_password(octets: &[u8]) -> bool
    ensures { Decides result (IsPassword octets.now) }
{
    if octets.len() < 1 || octets.len() > 256 {
        return false;
    }
    are_visible(octets)
}

/// A name, a space and a password.
fn name_and_password(text: &[u8]) -> Option<(Ident, &[u8])>
    ensures { MatchOption result
        ((name w : List ℕ) → IsIdent name → IsPassword w → text.now ≡ name ++ 32 ∷ w → ⊥)
        (λ p. IsIdent p.0 × IsPassword p.1.now × (text.now ≡ p.0 ++ 32 ∷ p.1.now)) }
{
    let Some((name, password)) = cut(text, b' ') else {
        return None;
    };
    let Some(name) = name_of(name) else {
        return None;
    };
    if !is_password(password) {
        return None;
    }
    Some((name, password))
}

/// Two passwords with a space between them.
fn two_passwords(text: &[u8]) -> Option<(&[u8], &[u8])>
    ensures { MatchOption result
        ((v w : List ℕ) → IsPassword v → IsPassword w → text.now ≡ v ++ 32 ∷ w → ⊥)
        (λ p. IsPassword p.0.now × IsPassword p.1.now × (text.now ≡ p.0.now ++ 32 ∷ p.1.now)) }
{
    let Some((old, new)) = cut(text, b' ') else {
        return None;
    };
    if !is_password(old) {
        return None;
    }
    if !is_password(new) {
        return None;
    }
    Some((old, new))
}

/// A name and two passwords, with spaces between them.
fn name_and_passwords(text: &[u8]) -> Option<(Ident, &[u8], &[u8])>
    ensures { MatchOption result
        ((name v w : List ℕ) → IsIdent name → IsPassword v → IsPassword w
        → text.now ≡ name ++ 32 ∷ (v ++ 32 ∷ w) → ⊥)
        (λ p. IsIdent p.0 × IsPassword p.1.now × IsPassword p.2.now
        × (text.now ≡ p.0 ++ 32 ∷ (p.1.now ++ 32 ∷ p.2.now))) }
{
    let Some((name, back)) = cut(text, b' ') else {
        return None;
    };
    let Some(name) = name_of(name) else {
        return None;
    };
    match two_passwords(back) {
        Some((old, new)) => Some((name, old, new)),
        None => None,
    }
}

/// The command that the line is; `None` exactly where it is not a command.
pub(crate) fn command_of(line: &[u8]) -> Option<Command<'_>>
    ensures { MatchOption result ((c : commands.Command) → IsCommand c → line.now
        ≡ command_text c → ⊥)
        (λ c. IsCommand (command_in c) × (line.now ≡ command_text (command_in c))) }
{
    let Some((verb, back)) = cut(line, b' ') else {
        return None;
    };
    if verb == b"add".as_slice() {
        return match name_and_password(back) {
            Some((name, password)) => Some(Command::Add { name, password }),
            None => None,
        };
    }
    if verb == b"check".as_slice() {
        return match name_and_password(back) {
            Some((name, password)) => Some(Command::Check { name, password }),
            None => None,
        };
    }
    if verb == b"change".as_slice() {
        return match name_and_passwords(back) {
            Some((name, old, new)) => Some(Command::Change { name, old, new }),
            None => None,
        };
    }
    if verb == b"remove".as_slice() {
        return match name_of(back) {
            Some(name) => Some(Command::Remove { name }),
            None => None,
        };
    }
    None
}
