use crate::same::assert_same;
use guest_image::{Image, parse};

// The bytes stand in the order name, entry, load address, body.
#[test]
fn tells_images_from_other_bytes(rt: HostRuntime) {
    let cases = [
        (
            b"ARNIMG01\0\0\x01\0\0\0\0\0\xff\xff\x04\0\0\0\0\0A".as_slice(),
            true,
        ),
        (b"ARNIMG01\0\0\x01\0\0\0\0\0\xff\xff\x04\0\0\0\0\0AB", false),
        (b"ARNIMG01\0\0\x01\0\0\0\0\0\0\0\x05\0\0\0\0\0", true),
        (b"ARNIMG01\0\0\x01\0\0\0\0\0\x01\0\x05\0\0\0\0\0", false),
        (b"ARNIMG01\0\0\x01\0\0\0\0\0\0\0\x01\0\0\0\0", false),
        (b"ARNIMG01\x02\0\x01\0\0\0\0\0\0\0\x01\0\0\0\0\0", false),
        (b"ARNIMG02\0\0\x01\0\0\0\0\0\0\0\x01\0\0\0\0\0", false),
    ];
    for (bytes, is_image) in cases {
        assert_same(&rt, (bytes, parse(bytes).is_ok()), (bytes, is_image));
    }
}

#[test]
fn reads_entry_and_load_address(rt: HostRuntime) {
    assert_same(
        &rt,
        parse(b"ARNIMG01\x04\0\x01\0\0\0\0\0\x08\0\x02\0\0\0\0\0\x73\0\0\0"),
        Ok(Image {
            entry: 0x1_0004,
            load: 0x2_0008,
        }),
    );
}
