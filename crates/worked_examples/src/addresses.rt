use net_addr::{
    Bytes, Name, Prefix, Span, boundary_law, lines, read_addr, read_mask, read_number, words,
};
use std::test::Fail;

#[test]
fn prefixes_hold_their_addresses(rt: HostRuntime) -> Result<(), Fail> {
    let range = Prefix::around(0x0a01_0203, 16).ok_or("length 16")?;
    assert_eq!(rt; Prefix::new(0x0a01_0000, 16), Some(range));
    assert_eq!(rt; range.len(), 16);
    assert!(rt; range.contains(range.last()) && range.covers(range));
    assert!(rt; !range.contains(range.base() - 1));
    boundary_law();
    Ok(())
}

#[test]
fn names_stand_in_byte_order(rt: HostRuntime) -> Result<(), Fail> {
    let short = Name::from_vec(b"R1".to_vec(rt.alloc())?);
    let long = Name::from_vec(b"R10".to_vec(rt.alloc())?);
    assert!(rt; short < long && short != long);
    let bytes = Bytes::from_vec(long.into_vec());
    assert_eq!(rt; bytes.as_slice(), b"R10".as_slice());
    Ok(())
}

#[test]
fn words_are_numbers_addresses_and_masks(rt: HostRuntime) {
    let most = 18_446_744_073_709_551_615;
    assert_eq!(rt; read_number(b"18446744073709551615", most), Some(most));
    for (word, address, len) in [
        (b"255.255.255.0".as_slice(), Some(0xffff_ff00), Some(24)),
        (b"010.0.0.3", Some(0x0a00_0003), None),
        (b"0001.0.0.0", None, None),
        (b"10.0.0.0.", None, None),
    ] {
        assert_eq!(rt; read_addr(word), address, "{word:?}");
        assert_eq!(rt; read_mask(word), len, "{word:?}");
    }
}

#[test]
fn a_text_falls_into_lines_and_words(rt: HostRuntime) -> Result<(), Fail> {
    let text = b"interface Serial0\r\n\n \tip  address\r\r\nend";
    let all = lines(rt.alloc(), text)?;
    assert_eq!(rt; all.as_slice().len(), 4);
    let line = all.as_slice()[2];
    assert_eq!(rt; (line.number, line.indent), (3, 2));
    let words = words(rt.alloc(), text, line.span)?;
    assert_eq!(rt;
        words.into_vec().as_slice(),
        [
            Span {
                start: 22,
                stop: 24
            },
            Span {
                start: 26,
                stop: 34
            }
        ]
        .as_slice()
    );
    Ok(())
}
