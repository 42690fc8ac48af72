use super::*;
use std::test::Fail;

#[test]
fn fields_are_written_and_read(rt: HostRuntime) -> Result<(), Fail> {
    let mut writer = FieldWriter::new(rt.alloc());
    writer.u8(0x0c)?;
    writer.u32(0x0102_0304)?;
    writer.u64(1000)?;
    writer.flag(true)?;
    writer.flag(false)?;
    writer.bytes(b"ab")?;
    let written = writer.finish();
    let want = b"\x0c\x01\x02\x03\x04\0\0\0\0\0\0\x03\xe8\x01\0\0\0\0\x02ab";
    assert_eq!(rt; written.as_slice(), want.as_slice());

    let mut reader = FieldReader::new(written.as_slice());
    assert_eq!(rt; reader.left(), 21);
    assert_eq!(rt; reader.u8(), Ok(0x0c));
    assert_eq!(rt; reader.u32(), Ok(0x0102_0304));
    assert_eq!(rt; reader.u64(), Ok(1000));
    assert_eq!(rt; reader.flag(), Ok(true));
    assert_eq!(rt; reader.flag(), Ok(false));
    assert_eq!(rt; reader.bytes(), Ok(b"ab".as_slice()));
    assert_eq!(rt; reader.left(), 0);
    assert_eq!(rt; reader.u8(), Err(FieldError::Short));
    Ok(())
}

#[test]
fn bytes_want_their_count(rt: HostRuntime) {
    let table: [(&[u8], Result<&[u8], FieldError>, usize); 5] = [
        (b"\0\0\0\x02ab", Ok(b"ab"), 0),
        (b"\0\0\0\x02abc", Ok(b"ab"), 1),
        (b"\0\0\0\x02a", Err(FieldError::Short), 5),
        (b"\0\0\x02", Err(FieldError::Short), 3),
        (b"\xff\xff\xff\xffa", Err(FieldError::Short), 5),
    ];
    for (input, found, left) in table {
        let mut reader = FieldReader::new(input);
        assert_eq!(rt; reader.bytes(), found);
        assert_eq!(rt; reader.left(), left);
    }
}

#[test]
fn other_flags_are_refused(rt: HostRuntime) {
    let mut reader = FieldReader::new(b"\x02");
    assert_eq!(rt; reader.flag(), Err(FieldError::BadTag));
    assert_eq!(rt; reader.left(), 1);
    assert_eq!(rt; reader.u8(), Ok(2));
    assert_eq!(rt; reader.flag(), Err(FieldError::Short));
}
