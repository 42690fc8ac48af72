use super::*;
use ps_base::AckId;

#[test]
fn ids_are_written_and_read(rt: HostRuntime) {
    let id = AckId {
        sub: 1,
        message: 1,
        lease: 1,
    };
    let text = write(id);
    assert_eq!(rt;
        text.as_slice(),
        b"AAAAAAAAAAEAAAAAAAAAAQAAAAAAAAAB".as_slice()
    );
    assert_eq!(rt; read(&text), Some(id));
    let last = AckId {
        sub: u64::MAX,
        message: 2,
        lease: 0,
    };
    assert_eq!(rt; read(&write(last)), Some(last));
}

#[test]
fn other_texts_are_refused(rt: HostRuntime) {
    let texts: [&[u8]; 6] = [
        b"",
        b"AAAAAAAAAAEAAAAAAAAAAQAAAAAAAAA",
        b"AAAAAAAAAAEAAAAAAAAAAQAAAAAAAAABA",
        b"AAAAAAAAAAEAAAAAAAAAAQAAAAAAAAA=",
        b"AAAAAAAAAAEAAAAAAAAAAQAAAAAAAA_-",
        b"AAAAAAAAAAEAAAAAAAAAAQAAAAAAAAABAAAA",
    ];
    for text in texts {
        assert_eq!(rt; read(text), None);
    }
}
