use crate::same::{assert_gives, origin};
use arn_base::Src;
use guest_give::{give_of, give_whole};
use parts_model::TaggedByte;
use std::test::Fail;

fn held(value: u8, event: u64, at: u32) -> TaggedByte {
    TaggedByte {
        value,
        origin: Src { event, at },
    }
}

#[test]
fn neighbours_are_one_origin(rt: HostRuntime) -> Result<(), Fail> {
    let bytes = [
        held(0x61, 7, 0),
        held(0x62, 7, 1),
        held(0x63, 9, 0),
        held(0x64, 9, 2),
    ];
    let give = give_of(rt.alloc(), &bytes)?;
    let origins = [origin(7, 0, 2), origin(9, 0, 1), origin(9, 2, 1)];
    assert_gives(&rt, &give, b"abcd", &origins);
    Ok(())
}

#[test]
fn nothing_has_no_origin(rt: HostRuntime) -> Result<(), Fail> {
    let give = give_of(rt.alloc(), &[])?;
    assert_gives(&rt, &give, &[], &[]);
    Ok(())
}

#[test]
fn all_bytes_of_an_event_are_one_origin(rt: HostRuntime) -> Result<(), Fail> {
    let give = give_whole(rt.alloc(), 5, b"ab")?;
    assert_gives(&rt, &give, b"ab", &[origin(5, 0, 2)]);
    Ok(())
}
