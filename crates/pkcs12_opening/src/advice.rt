//! What to do after each failure.
use crate::ending::Ending;
use transfer::TransferError;

/// How to make a store whose algorithms are opened.
const EXPORT_ANEW: &str = "\
OpenSSL can write the store anew with algorithms that are opened, but keeps one private key of it, and no \
friendly name. So count the keys first:
    openssl pkcs12 -in STORE.p12 -nocerts -passout pass:count | grep -c BEGIN
If there is one or none:
    openssl pkcs12 -in STORE.p12 -out anew.pem
    openssl pkcs12 -export -in anew.pem -out NEW.p12 -certpbe AES-256-CBC -keypbe AES-256-CBC -macalg sha256
    rm anew.pem
Add -legacy to the first two commands if the store is under RC2, and to the third -nokeys if it has no \
private key, or else -name NAME. If there are more, Java's keytool keeps them all, with their names:
    keytool -importkeystore -srckeystore STORE.p12 -destkeystore NEW.p12 -deststoretype PKCS12";

const LOOK: &str = "\
Look whether it is the right file. To see what is in it:
    openssl asn1parse -inform DER -in STORE.p12 | head
OpenSSL and keytool write a store that is in BER anew in DER, as the manual page says (EXAMPLES); OpenSSL \
keeps one private key of it, and no friendly name.";

const DAMAGED: &str = "\
Have it exported again where it came from. If OpenSSL or keytool reads it, they can write it anew, as the \
manual page says (EXAMPLES); OpenSSL keeps one private key of it, and no friendly name.";

const NO_MAC: &str = "\
Anybody may have changed it. Have it exported again, with a MAC, where it came from.
Only if you know from elsewhere that nobody changed it: check, list and export open it with
    --allow-no-mac";

const OTHER_PASSWORD: &str = "\
The certificates or keys have another password than the MAC, or are damaged. OpenSSL asks for \
both passwords, and tells which it is:
    openssl pkcs12 -twopass -in STORE.p12 -noout";

const PASSWORD: &str = "\
Run pkcs12 at a terminal, where it asks for it, or give it by one of these:
    --password-file FILE    --password-env NAME    --password-stdin";

const NEW_PASSWORD: &str = "\
Run pkcs12 at a terminal, where it asks for it, or give it by one of these:
    --new-password-file FILE    --new-password-env NAME    --new-password-stdin";

pub(crate) const WRONG_PASSWORD: &str = "\
Try the password again. Of a file the first line counts, with its spaces; a byte order mark \
would be a part of it.
To test the password with OpenSSL:
    openssl pkcs12 -in STORE.p12 -noout";

const UNUSABLE: &str = "\
A password has at most 1,024 octets of UTF-8; a new one has at least 1 unless \
--allow-empty-password is given. To convert:
    iconv -f LATIN1 -t UTF-8 FILE >NEWFILE";

const SELF_TEST: &str = "\
Do not use this program: it, or the machine, does not do what was proved. Build \
it anew, and then install it anew if it was installed:
    ./pkcs12 build
    ./pkcs12 self-test";

const NOT_EXPORTED: &str = "\
Give --skip-others to export the rest. OpenSSL writes out a private key that is not encrypted too:
    openssl pkcs12 -in STORE.p12 -out others.pem";

impl Ending {
    /// The next command to type, or what to look at.
    pub fn advice(self) -> &'static str {
        match self {
            Ending::Usage => "See pkcs12 --help, and pkcs12 SUBCOMMAND --help.",
            Ending::ReadFault => "Look whether the file is there and can be read.",
            Ending::WriteFault => "Look at the folder above it.",
            Ending::Memory =>
                "Nothing was left behind. Close other programs, or use a machine with more memory.",
            Ending::PasswordMissing => PASSWORD,
            Ending::NewPasswordMissing => NEW_PASSWORD,
            Ending::PasswordUnusable => UNUSABLE,
            Ending::OutputExists => "Give another name.",
            Ending::SelfTestFailed => SELF_TEST,
            Ending::NotExported => NOT_EXPORTED,
            Ending::SealLimit =>
                "Give a larger --seal-limit, or fewer --rounds, which make a password easier to guess.",
            Ending::TooManyFiles =>
                "If that is what you expect of the store, give a larger number.",
            Ending::Expiring => "Have new certificates issued, and make a new store.",
            Ending::Refused(refusal) => advice_on_store(refusal),
        }
    }
}

fn advice_on_store(refusal: TransferError) -> &'static str {
    match refusal {
        TransferError::Malformed => LOOK,
        TransferError::Unsupported | TransferError::MacUnsupported | TransferError::KeyMalformed =>
            EXPORT_ANEW,
        TransferError::ContentMalformed => DAMAGED,
        TransferError::MacMissing => NO_MAC,
        TransferError::DecryptFailed => OTHER_PASSWORD,
        TransferError::ZeroIterations =>
            "Do not trust the store; have it exported again where it came from.",
        TransferError::WorkLimit => "If you trust the store, give a larger --limit.",
        TransferError::MacMismatch => WRONG_PASSWORD,
        TransferError::Rng => "Look whether /dev/urandom can be read:\n    ls -l /dev/urandom",
        TransferError::TooLong =>
            "Look whether it is the right file, or export the store in smaller parts.",
        TransferError::Memory => "Close other programs, or use a machine with more memory.",
    }
}
