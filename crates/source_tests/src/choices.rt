// Which channels a selector chooses.
use crate::intakes::Intakes;
use scenarios::pass;
use std::test::Fail;

const CHOICES: &str = "CZ is mapped to 0, the default is 2, and 1 is optional for US.
by-state
mapped CZ 0
default 2
may-get US 1
state CZ
required 0
optional
// an optional channel beside the default
state US
required 2
optional 1
state XX
required 2
optional

The same, but that 0, which is required, and 1 are optional for CZ.
by-state
mapped CZ 0
default 2
may-get CZ 0 1
state CZ
required 0
optional 1
// an empty value, and none
state
required 2
optional
no-state
required 2
optional

All but the optional ones are required.
replicating 4 2 0
no-state
required 1 3
optional 2 0";

#[test]
fn headers_choose_channels(rt: HostRuntime) -> Result<(), Fail> {
    pass::<Intakes>(rt.alloc(), CHOICES)
}
