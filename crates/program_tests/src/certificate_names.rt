//! Names as `openssl x509 -nameopt RFC2253` of OpenSSL 3.0.19 prints them, and what is no name.
use std::alloc::Global;
use x509_names::{Parts, hex_text, is_time, name_text, time_text};

/// Names in hexadecimal digits, and their texts.
static NAMES: [(&str, &str); 12] = [
    ("3000", ""),
    (
        "302e310b3009060355040613024445311f301d060355040a0c16412c2042202620224322203c643e3b652b665c673d68",
        "O=A\\, B & \\\"C\\\" \\<d\\>\\;e\\+f\\\\g=h,C=DE",
    ),
    (
        "302e311f301d06035504030c16206c656164696e6720616e6420747261696c696e6720310b3009060355040b0c022378",
        "OU=\\#x,CN=\\ leading and trailing\\ ",
    ),
    (
        "30183116301406035504030c0d5a6fc3ab20e282ac20f09f9491",
        "CN=Zo\\C3\\AB \\E2\\82\\AC \\F0\\9F\\94\\91",
    ),
    ("300e310c300a060355040314035a6feb", "CN=Zo\\C3\\AB"),
    (
        "30153113301106035504031e0a005a006f00eb002020ac",
        "CN=Zo\\C3\\AB \\E2\\82\\AC",
    ),
    ("3010310e300c06035504030c056100620a7f", "CN=a\\00b\\0A\\7F"),
    (
        "301d311b300a0603550403130374776f300d060355040a1306696e206f6e65",
        "O=in one+CN=two",
    ),
    (
        "3010310e300c06042a0304050c0477686174",
        "1.2.3.4.5=#0C0477686174",
    ),
    (
        "304431133011060a0992268993f22c64011916036f726731173015060a0992268993f22c64011916076578616d706c653114301206092a864886f70d01090116056140622e63",
        "emailAddress=a@b.c,DC=example,DC=org",
    ),
    (
        "304d310b3009060355040513023037310c300a06035504040c03537572310e300c060355042a0c05476976656e310b3009060355040c0c02447231133011060a0992268993f22c6401010c03756964",
        "UID=uid,title=Dr,GN=Given,SN=Sur,serialNumber=07",
    ),
    (
        "3044310e300c06035504090c053120576179310e300c06035504110c053031323334310a3008060355040d0c0164310a3008060355042b0c0169310a3008060355042e130171",
        "dnQualifier=q,initials=i,description=d,postalCode=01234,street=1 Way",
    ),
];

/// Other elements, and their texts: octets that are no name, and a value that is no string.
static OTHERS: [(&str, &str); 5] = [
    ("", "#"),
    ("ff", "#FF"),
    ("300100", "#300100"),
    ("310030", "#310030"),
    (
        "3011310f300d060355040304066f6374657473",
        "CN=#04066F6374657473",
    ),
];

/// Times in text, and what is written of them.
static TIMES: [(&[u8], &str); 6] = [
    (b"\x17\x0d260102030405Z", "2026-01-02 03:04:05 UTC"),
    (b"\x17\x0d500102030405Z", "1950-01-02 03:04:05 UTC"),
    (b"\x17\x0d491231235959Z", "2049-12-31 23:59:59 UTC"),
    (b"\x18\x0f20560102030405Z", "2056-01-02 03:04:05 UTC"),
    (b"\x17\x0b2601020304Z", "#170B323630313032303330345A"),
    (
        b"\x17\x0d26010203040\x1bZ",
        "#170D32363031303230333034301B5A",
    ),
];

/// Times, and whether they exist: as GNU `date` has it for those in the form of DER, and the last one is not.
static EXISTING: [(&[u8], bool); 9] = [
    (b"\x17\x0d000229235959Z", true),
    (b"\x17\x0d500229000000Z", false),
    (b"\x17\x0d260631000000Z", false),
    (b"\x17\x0d260630240000Z", false),
    (b"\x17\x0d260630006000Z", false),
    (b"\x17\x0d260001000000Z", false),
    (b"\x18\x0f21000229000000Z", false),
    (b"\x18\x0f24000229000000Z", true),
    (b"\x17\x0b2606300000Z", false),
];

/// Whether the name of these digits has this text.
fn is_named(alloc: Global, digits: &str, text: &str) -> bool {
    let Ok(name) = hex::decode(alloc, digits) else {
        return false;
    };
    match name_text(alloc, name.as_slice()) {
        Ok(found) => found.as_str() == text,
        Err(_) => false,
    }
}

#[test]
fn names_are_those_of_openssl(rt: HostRuntime) {
    for (digits, text) in NAMES.iter().chain(OTHERS.iter()) {
        assert!(rt; is_named(rt.alloc(), digits, text), "{digits}");
    }
}

#[test]
fn times_are_written_with_their_century(rt: HostRuntime) {
    for (time, text) in &TIMES {
        let found = time_text(rt.alloc(), time).expect(&rt, "a text");
        assert!(rt; found.as_str() == *text, "{text}");
    }
}

#[test]
fn times_that_exist_are_told(rt: HostRuntime) {
    for (time, exists) in &EXISTING {
        assert!(rt; is_time(time) == *exists);
    }
}

#[test]
fn octets_are_written_as_digits(rt: HostRuntime) {
    let found = hex_text(rt.alloc(), b"\x01\xab").expect(&rt, "a text");
    assert!(rt; found.as_str() == "#01AB");
    assert!(rt; Parts::read(b"\x30\x00").is_err());
}
