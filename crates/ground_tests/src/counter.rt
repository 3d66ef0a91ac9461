ghost use Rattle.std.specs.Prelude.{◌≡◌, ◌<◌};

use arn_base::Steps;
use std::marker::Brand;
use std::sync::ledger::{Blank, Ledger};

fn tick_twice<L: Ledger>(blank: Blank)
    requires name { blank.name ≡ L.name }
    requires parts { blank.parts ≡ L.parts }
    requires some { 0 < blank.parts }
{
    let mut steps = Steps::<L>::new(blank);
    steps.tick();
    steps.tick();
}

#[test]
fn counts_steps() {
    tick_twice::<Brand>(Blank::new(1));
}
