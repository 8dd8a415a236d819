//! The failures of private keys.
use crate::not_pem::without;
use key_files::KeyRefusal;
use pkcs12_opening::{Ending, Failure};
use std::alloc::{AllocError, Global};
use terminal_text::Printable;
use transfer::TransferError;

const CONVERT: &str = "\
OpenSSL writes a private key in the form that is read:
    openssl pkcs8 -topk8 -in KEY.pem -out NEW.pem
A key of OpenSSH is converted in its place, so copy it first:
    ssh-keygen -p -m PKCS8 -f COPY";

const ONE_EACH: &str = "Give a file for each private key, each by a --key of its own.";

const PASSWORD: &str = "\
Run pkcs12 at a terminal, where it asks for it, or give it by one of these:
    --password-file FILE    --password-env NAME    --password-stdin";

const LARGER_LIMIT: &str = "If you trust the file, give a larger --limit.";

const WRONG_PASSWORD: &str = "\
Try the password again. One password opens all private keys that are given. To test it with OpenSSL:
    openssl pkey -in KEY.pem -noout";

/// What is said of a refusal: the kind of failure, what is wrong with the private key, and what to do.
#[derive(Clone, Copy)]
struct Explanation {
    ending: Ending,
    text: &'static str,
    advice: &'static str,
}

fn told(ending: Ending, text: &'static str, advice: &'static str) -> Explanation {
    Explanation {
        ending,
        text,
        advice,
    }
}

/// The same of a key that is of a kind that is not read.
fn unsupported(text: &'static str) -> Explanation {
    told(Ending::Refused(TransferError::Unsupported), text, CONVERT)
}

/// What is said of an encrypted private key; none where the refusal is another one.
fn told_of_encrypted(refusal: KeyRefusal) -> Option<Explanation> {
    match refusal {
        KeyRefusal::TooManyRounds => Some(told(
            Ending::Refused(TransferError::WorkLimit),
            "takes more rounds to open than --limit allows",
            LARGER_LIMIT,
        )),
        KeyRefusal::PasswordMissing => Some(told(
            Ending::PasswordMissing,
            "is encrypted, and its password was not given",
            PASSWORD,
        )),
        KeyRefusal::NotOpened => Some(told(
            Ending::Refused(TransferError::DecryptFailed),
            "does not open under the password",
            WRONG_PASSWORD,
        )),
        _ => None,
    }
}

/// What is said of any other private key.
fn told_of(refusal: KeyRefusal) -> Explanation {
    match refusal {
        KeyRefusal::UnknownForm => unsupported("is of a form that is not read"),
        KeyRefusal::NoCurve => unsupported("does not name its curve"),
        KeyRefusal::UnknownScheme => unsupported("is under another scheme than PBES2 with PBKDF2"),
        _ => told(
            Ending::Refused(TransferError::KeyMalformed),
            "is not of the form that its label names, or is encrypted by another scheme than PBES2",
            CONVERT,
        ),
    }
}

/// The failure of a private key in the file at this path, which has these octets.
pub(crate) fn key_failure(
    alloc: Global,
    path: &str,
    octets: &[u8],
    refusal: KeyRefusal,
) -> Failure {
    let shown = Printable(path);
    match refusal {
        KeyRefusal::NoKey => return without(alloc, path, "private key", octets),
        KeyRefusal::Memory => return Failure::from(AllocError),
        KeyRefusal::ManyKeys => {
            let text = format!(in alloc; "{shown} has more than one private key");
            let malformed = Ending::Refused(TransferError::Malformed);
            return Failure::told(malformed, text).advised(ONE_EACH);
        }
        _ => {}
    }
    let told = match told_of_encrypted(refusal) {
        Some(told) => told,
        None => told_of(refusal),
    };
    let what = told.text;
    let text = format!(in alloc; "the private key in {shown} {what}");
    Failure::told(told.ending, text).advised(told.advice)
}
