//! The vectors of RFC 1321, A.5: MD5 of four of its messages.
use crate::checks::expect;
use md5::{Digest, Md5};
use std::test::Fail;

#[test]
fn md5_gives_the_digests_of_its_standard(rt: HostRuntime) -> Result<(), Fail> {
    let alloc = rt.alloc();
    for (message, digits) in [
        ("a", "0cc175b9c0f1b6a831c399e269772661"),
        ("abc", "900150983cd24fb0d6963f7d28e17f72"),
        ("message digest", "f96b697d7cb7938d525a2f31aaf161d0"),
        (
            "abcdefghijklmnopqrstuvwxyz",
            "c3fcd3d76192e4007dfb496cca67e13b",
        ),
    ] {
        let spelled = hex::encode(alloc, Md5::digest(message.as_bytes()).as_slice())?;
        expect(spelled.as_str() == digits, "a message has its digest")?;
    }
    Ok(())
}
