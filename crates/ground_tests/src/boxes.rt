ghost use Rattle.std.specs.Prelude.{None};

use arn_base::{Choice, Chooser, Device, Reply, Took};
use std::test::Fail;

/// Chooses the last process for as many instructions as there are processes.
#[derive(Drop)]
struct Last;

impl Chooser for Last {
    ghost choices = { λ _ _. None };

    fn choose(&mut self, runnable: u32) -> Choice {
        Choice {
            index: runnable.saturating_sub(1),
            count: runnable,
        }
    }
}

/// Gives what it was handed last.
#[derive(Drop)]
struct Echo {
    count: u32,
}

impl Device for Echo {
    ghost replies = { λ _ _. None };

    ghost room = { λ _. None };

    ghost took = { λ _. None };

    ghost put_faults = { λ _ _. None };

    fn ask(&mut self, _buf: &mut [u8]) -> Reply {
        Reply::Gave(self.count)
    }

    fn put(&mut self, bytes: &[u8]) -> Took {
        self.count = u32::try_from(bytes.len()).unwrap_or(0);
        Took::Count(self.count)
    }
}

fn chosen<C: Chooser>(chooser: &mut C) -> Choice {
    chooser.choose(3)
}

fn handed_over<D: Device>(device: &mut D) -> (Took, Reply) {
    (device.put(b"abc"), device.ask(&mut [0; 8]))
}

#[test]
fn boxes_pass_calls_on(rt: HostRuntime) -> Result<(), Fail> {
    let mut chooser: Box<dyn Chooser> = Box::new(rt.alloc(), Last)?;
    assert_eq!(rt; chosen(&mut chooser), Choice { index: 2, count: 3 });
    let mut device: Box<dyn Device> = Box::new(rt.alloc(), Echo { count: 0 })?;
    assert_eq!(rt; handed_over(&mut device), (Took::Count(3), Reply::Gave(3)));
    Ok(())
}
