//! Names, hashes and streams by values from outside.
use cm_base::{
    FieldReader, FileHasher, Hash, JobId, Label, MemSink, MemSource, PackageId, Place, ServerName,
    Sink, Source, Version, write_text, write_two,
};
use std::process::Abort;
use std::test::Fail;

fn digits(rt: &impl Abort, pieces: &[&[u8]], count: u64) -> [u8; 64] {
    let mut hasher = FileHasher::new();
    let mut left = 1u64 << 20;
    for piece in pieces {
        assert!(rt; piece.len() as u64 <= left);
        left -= piece.len() as u64;
        hasher.feed(piece);
    }
    let (fed, hash) = hasher.done();
    assert_eq!(rt; fed, count);
    let mut text = [0; 64];
    hash.write(&mut text);
    text
}

#[test]
fn hashes(rt: HostRuntime) -> Result<(), Fail> {
    let empty = b"e3b0c44298fc1c149afbf4c8996fb92427ae41e4649b934ca495991b7852b855";
    let abc = b"ba7816bf8f01cfea414140de5dae2223b00361a396177a9cb410ff61f20015ad";
    let hello = b"2cf24dba5fb0a30e26e83b2ac5b9e29e1b161e5c1fa7425e73043362938b9824";
    let long = b"248d6a61d20638b8e5c026930c3e6039a33ce45964ff2167f6ecedd419db06c1";
    let text = b"abcdbcdecdefdefgefghfghighijhijkijkljklmklmnlmnomnopnopq".as_slice();
    assert!(rt; digits(&rt, &[], 0) == *empty);
    assert!(rt; digits(&rt, &[b"abc"], 3) == *abc);
    assert!(rt; digits(&rt, &[b"h", b"", b"ello"], 5) == *hello);
    for cut in 0..text.len() {
        assert!(rt; digits(&rt, &[&text[..cut], &text[cut..]], 56) == *long);
    }
    let read = Hash::read(abc).ok_or("a hash")?;
    let mut again = [0; 64];
    read.write(&mut again);
    assert!(rt; again == *abc);
    assert!(rt; Hash::read(&abc[1..]).is_none());
    assert!(rt;
        Hash::read(b"BA7816bf8f01cfea414140de5dae2223b00361a396177a9cb410ff61f20015ad").is_none()
    );
    Ok(())
}

#[test]
fn names(rt: HostRuntime) -> Result<(), Fail> {
    for text in [
        b"ps100001".as_slice(),
        b"PS10000G",
        b"PS10000",
        b"PS1000012",
        b"P-100001",
    ] {
        assert!(rt; PackageId::read(text).is_none());
    }
    let package = PackageId::read(b"PS1000FF").ok_or("a package")?;
    assert!(rt; package.as_bytes() == b"PS1000FF".as_slice());
    let name = ServerName::read(b"DP-9_a.B").ok_or("a name")?;
    assert!(rt; name.as_bytes() == b"dp-9_a.b".as_slice());
    assert!(rt; ServerName::read(b"a:b").is_none() && ServerName::read(b"").is_none());
    assert!(rt; ServerName::read(&[b'a'; 63]).is_some() && ServerName::read(&[b'a'; 64]).is_none());
    let label = Label::read(b"Default-Site <PS1>~").ok_or("a label")?;
    assert!(rt; label.as_bytes() == b"Default-Site <PS1>~".as_slice());
    assert!(rt; Label::read(b"a\x7f").is_none() && Label::read(&[b' '; 64]).is_none());
    let place = Place::read(&[0; 120]).ok_or("a place")?;
    assert!(rt; place.as_bytes().len() == 120);
    assert!(rt; Place::read(&[0; 121]).is_none() && Place::read(b"").is_none());
    assert!(rt; Version::new(0).is_none() && JobId::new(0).is_none());
    let version = Version::new(u32::MAX).ok_or("a version")?;
    assert!(rt; version.number() == u32::MAX);
    let job = JobId::new(u64::MAX).ok_or("a job")?;
    assert!(rt; job.number() == u64::MAX);
    Ok(())
}

#[test]
fn fields(rt: HostRuntime) {
    let bytes = [7, 1, 2, 1, 0, 0, 2, 1, 0, 0, 0, 0, 0, 0, 3, 9];
    let mut reader = FieldReader::new(&bytes);
    assert_eq!(rt; reader.u8(), Some(7));
    assert_eq!(rt; reader.u16(), Some(513));
    assert_eq!(rt; reader.u32(), Some(0x0200_0001));
    assert_eq!(rt; reader.u64(), Some(0x0300_0000_0000_0001));
    assert_eq!(rt; reader.at(), 15);
    assert_eq!(rt; reader.u16(), None);
    assert!(rt; reader.bytes(2).is_none());
    assert!(rt; reader.bytes(1).is_some());
    assert_eq!(rt; reader.u8(), None);
}

#[test]
fn streams(rt: HostRuntime) -> Result<(), Fail> {
    let alloc = rt.alloc();
    let mut source = MemSource::new(b"hello".to_vec(alloc)?, 2, [1].to_vec(alloc)?);
    let mut buf = [0; 4];
    let mut counts = [9; 6];
    for count in counts.iter_mut() {
        if let Ok(read) = source.read(&mut buf) {
            *count = read;
        }
    }
    assert!(rt; counts == [2, 9, 2, 1, 0, 0]);
    let mut sink = MemSink::new(alloc, 3, [2].to_vec(alloc)?);
    assert!(rt; write_text(&mut sink, b"abcd").is_ok());
    assert!(rt; write_text(&mut sink, b"e").is_err());
    assert!(rt; sink.write(b"fghi") == Ok(3));
    assert!(rt; write_two(&mut sink, b"i", b"jk").is_ok());
    assert!(rt; sink.bytes() == b"abcdfghijk".as_slice());
    assert_eq!(rt; sink.short(), 0);
    Ok(())
}
