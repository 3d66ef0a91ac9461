ghost use Rattle.std.specs.Prelude.{IfOk};
ghost use Rattle.exchange_log.specs.Gives.{GiveHasSpelling};

use crate::same::assert_same;
use arn_base::{Bytes, Give, NoMemory, Origin, Origins};
use exchange_log::{GetError, get_give, give_len, put_give};
use std::alloc::Global;
use std::test::Fail;

// The byte "x", from place 5 of event 2.
const GIVE: [u8; 25] = [
    1, 0, 0, 0, 0x78, 1, 0, 0, 0, 2, 0, 0, 0, 0, 0, 0, 0, 5, 0, 0, 0, 1, 0, 0, 0,
];

fn give(alloc: Global) -> Result<Give, NoMemory>
    ensures { IfOk result GiveHasSpelling }
{
    let bytes = Bytes::from_slice(alloc, b"x")?;
    let mut origins = Origins::new(alloc);
    origins.push(Origin {
        event: 2,
        at: 5,
        len: 1,
    })?;
    Ok(Give { bytes, origins })
}

#[test]
fn a_give(rt: HostRuntime) -> Result<(), Fail> {
    let give = give(rt.alloc())?;
    let mut out = Vec::new(rt.alloc());
    put_give(&mut out, &give)?;
    assert_same(&rt, out.as_slice(), GIVE.as_slice());
    assert_same(&rt, give_len(&give), 25);
    assert_same(&rt, get_give(rt.alloc(), &GIVE, 0), Ok((give, 25)));
    for at in [1, 25, 26] {
        let malformed = GetError::Malformed { at: at as u64 };
        assert_same(&rt, get_give(rt.alloc(), &GIVE, at), Err(malformed));
    }
    Ok(())
}
