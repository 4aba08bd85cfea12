use crate::{Attr, Attributes, Path, Text, hex_of};
use std::test::Fail;

#[test]
fn texts_keep_their_bytes(rt: HostRuntime) -> Result<(), Fail> {
    let alloc = rt.alloc();
    let bytes = "Grüße".as_bytes().to_vec(alloc)?;
    let text = Text::from_bytes(bytes)?;
    assert_eq!(rt; text.as_str(), "Grüße");
    assert_eq!(rt; text.copy(alloc)?.as_bytes(), text.as_bytes());
    assert_eq!(rt; Text::fixed("a").copy(alloc)?.as_str(), "a");
    Ok(())
}

/// Each refused list of bytes with the length of its longest prefix that is UTF-8: a lone
/// continuation byte, a cut character, an overlong form, a surrogate, a code above U+10FFFF.
#[test]
fn refused_bytes_come_back(rt: HostRuntime) -> Result<(), Fail> {
    let alloc = rt.alloc();
    let refused: [(&[u8], usize); 5] = [
        (b"\x80", 0),
        (b"ab\xe2\x82", 2),
        (b"a\xc0\xaf", 1),
        (b"abc\xed\xa0\x80d", 3),
        (b"\xf4\x90\x80\x80", 0),
    ];
    for (bytes, valid) in refused.iter() {
        match Text::from_bytes(bytes.to_vec(alloc)?) {
            Ok(_) => assert!(rt; false, "accepted"),
            Err(e) => {
                assert_eq!(rt; e.valid, *valid);
                assert_eq!(rt; e.bytes.as_slice(), *bytes);
            }
        }
    }
    Ok(())
}

#[test]
fn numbers_in_hexadecimal(rt: HostRuntime) {
    let numerals = [
        (0, "0"),
        (9, "9"),
        (10, "a"),
        (15, "f"),
        (16, "10"),
        (255, "ff"),
        (4_096, "1000"),
        (3_735_928_559, "deadbeef"),
        (u32::MAX, "ffffffff"),
    ];
    for (n, text) in numerals.iter() {
        assert_eq!(rt; hex_of(*n).as_bytes(), text.as_bytes());
    }
}

#[test]
fn paths_and_attributes_are_copied(rt: HostRuntime) -> Result<(), Fail> {
    let alloc = rt.alloc();
    let mut path = Path::new(alloc);
    path.push(3)?;
    path.push(0)?;
    assert_eq!(rt; path.copy(alloc)?.steps(), [3, 0].as_slice());
    let mut attributes = Attributes::new(alloc);
    attributes.push(Attr {
        name: Text::fixed("id"),
        value: Some(Text::fixed("B:0")),
    })?;
    attributes.push(Attr {
        name: Text::fixed("hidden"),
        value: None,
    })?;
    let copy = attributes.copy(alloc)?;
    assert_eq!(rt; copy.as_slice().len(), 2);
    assert_eq!(rt; copy.as_slice()[0].name.as_str(), "id");
    assert!(rt; copy.as_slice()[1].value.is_none());
    Ok(())
}
