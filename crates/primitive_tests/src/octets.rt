//! Each type of the crate once.
use octet_core::{Items, Octets, ShortOctets, Text, decimal_of, decimal_u64_of};

#[test]
fn octets_in_memory_of_their_own(rt: HostRuntime) {
    let alloc = rt.alloc();
    let mut octets = Octets::new(alloc);
    assert!(rt;
        octets.push(1).is_ok()
            && octets.extend(&[2, 3]).is_ok()
            && octets.as_slice() == &[1, 2, 3][..]
    );
    octets.truncate(2);
    octets.as_mut_slice()[1] = 9;
    let copy = octets.try_clone(alloc).expect(&rt, "memory");
    assert!(rt;
        copy.as_slice() == &[1, 9][..] && copy == octets && octets.len() == 2 && !octets.is_empty()
    );
}

#[test]
fn items_and_texts_in_memory_of_their_own(rt: HostRuntime) {
    let alloc = rt.alloc();
    let mut items = Items::new(alloc);
    let text = Text::from_text(alloc, "grüße").expect(&rt, "memory");
    let copy = text.try_clone(alloc).expect(&rt, "memory");
    assert!(rt; copy == text && text.as_str() == "grüße");
    assert!(rt; items.push(text).is_ok() && items.get(0).is_some() && items.get(1).is_none());
}

#[test]
fn short_octets_are_extended_and_shown(rt: HostRuntime) {
    let mut short = ShortOctets::<4>::new(&[1, 2]);
    short.extend(&[3, 4]);
    assert!(rt; short == ShortOctets::new(&[1, 2, 3, 4]) && short.len() == 4);
    let text = format!(in rt.alloc(); "{short:?}").expect(&rt, "memory");
    assert!(rt; text.as_str() == "[1, 2, 3, 4]");
}

#[test]
fn decimal_numbers_are_read(rt: HostRuntime) {
    assert!(rt;
        decimal_of("4294967295") == Some(4294967295)
            && decimal_of("4294967296").is_none()
            && decimal_of("07").is_none()
    );
    assert!(rt;
        decimal_u64_of("18446744073709551615") == Some(18446744073709551615)
            && decimal_u64_of("18446744073709551616").is_none()
            && decimal_u64_of("+7").is_none()
    );
}
