//! Texts as writers of stores make them, and texts that none may make.
use ber_core::{Error, parts_octets, string_octets, to_der};
use std::alloc::{AllocError, Global};
use std::process::Abort;
use std::test::Fail;

/// That these octets are a text of the value with this DER text, which is a text of its own value.
fn check(rt: &impl Abort, alloc: Global, ber: &[u8], der: &[u8]) -> Result<(), Error> {
    assert!(rt; to_der(alloc, ber)?.as_slice() == der);
    assert!(rt; to_der(alloc, der)?.as_slice() == der);
    Ok(())
}

#[test]
fn nss_texts_are_read(rt: HostRuntime) -> Result<(), Fail> {
    let ber = [
        0x30, 0x80, 0x02, 0x01, 0x03, 0x30, 0x80, 0x06, 0x01, 0x2a, 0xa0, 0x80, 0x24, 0x80, 0x04,
        0x82, 0x00, 0x02, 7, 8, 0, 0, 0, 0, 0, 0, 0x30, 0x00, 0, 0,
    ];
    let der = [
        0x30, 0x10, 0x02, 0x01, 0x03, 0x30, 0x09, 0x06, 0x01, 0x2a, 0xa0, 0x04, 0x04, 0x02, 7, 8,
        0x30, 0x00,
    ];
    check(&rt, rt.alloc(), &ber, &der)?;
    // The last octets of a ciphertext stand in a part of their own.
    let parts = [0x04, 0x02, 1, 2, 0x04, 0x01, 3];
    assert_eq!(rt;
        parts_octets(rt.alloc(), &parts)?.as_slice(),
        [1, 2, 3].as_slice()
    );
    Ok(())
}

fn part_of(n: u16, octets: &mut Vec<u8>) -> Result<(), AllocError> {
    octets.extend_from_slice(&[0x04, 0x82, (n / 256) as u8, (n % 256) as u8])?;
    for k in 0..n {
        octets.push((k % 251) as u8)?;
    }
    Ok(())
}

#[test]
fn bouncy_castle_parts_are_joined(rt: HostRuntime) -> Result<(), Fail> {
    let mut ber = Vec::new(rt.alloc());
    ber.extend_from_slice(&[0x24, 0x80])?;
    part_of(1000, &mut ber)?;
    part_of(500, &mut ber)?;
    ber.extend_from_slice(&[0, 0])?;
    let octets = string_octets(rt.alloc(), ber.as_slice())?;
    assert_eq!(rt; octets.len(), 1500);
    let der = to_der(rt.alloc(), ber.as_slice())?;
    assert_eq!(rt; der.len(), 1504);
    let (header, value) = der.as_slice().split_at(4);
    assert_eq!(rt; header, [0x04, 0x82, 0x05, 0xdc].as_slice());
    assert!(rt; value == octets.as_slice());
    Ok(())
}

#[test]
fn other_texts_are_refused(rt: HostRuntime) -> Result<(), Fail> {
    let texts: [&[u8]; 9] = [
        &[],
        &[0, 0],
        // contents that do not end
        &[0x30, 0x80, 0x05, 0x00],
        // an octet after the text
        &[0x05, 0x00, 0x00],
        // an indefinite length of a primitive element
        &[0x04, 0x80, 0, 0],
        // a text of another kind in a string
        &[0x24, 0x02, 0x05, 0x00],
        // another string in parts
        &[0x2c, 0x02, 0x0c, 0x00],
        // a length in five octets
        &[0x05, 0x85, 0, 0, 0, 0, 0],
        // a tag in more than one octet
        &[0x1f, 0x81, 0x00, 0x00],
    ];
    for text in texts {
        assert!(rt; matches!(to_der(rt.alloc(), text), Err(Error::Malformed)));
    }
    Ok(())
}

#[test]
fn thirty_three_elements_stand_in_one_another(rt: HostRuntime) -> Result<(), Fail> {
    let mut ber = Vec::new(rt.alloc());
    for _ in 0..33 {
        ber.extend_from_slice(&[0x30, 0x80])?;
    }
    for _ in 0..33 {
        ber.extend_from_slice(&[0, 0])?;
    }
    assert_eq!(rt; to_der(rt.alloc(), ber.as_slice())?.len(), 66);
    let mut more = Vec::new(rt.alloc());
    more.extend_from_slice(&[0x30, 0x80])?;
    more.extend_from_slice(ber.as_slice())?;
    more.extend_from_slice(&[0, 0])?;
    assert!(rt; matches!(to_der(rt.alloc(), more.as_slice()), Err(Error::Malformed)));
    Ok(())
}
