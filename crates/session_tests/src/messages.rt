// Sessions of Avro messages: what is written, how the session ends, and what the channels then hold.
use crate::sessions::Sessions;
use scenarios::pass;
use std::test::Fail;

const MESSAGES: &str = "A call comes after a handshake, and reads wait.
channels 10
waits 2
reads-packs hello
waits 1
reads-packs append
messages end
wrote-packs hello-reply appended
holds a,;

A batch is refused, and a call comes after it.
channels 1
reads-packs hello
reads-packs batch
reads-packs append
messages end
wrote-packs hello-reply batch-failed appended
holds a,;

A channel before the one that refused keeps the events.
channels 2 1
reads-packs hello
reads-packs batch
messages end
wrote-packs hello-reply batch-failed
holds x,y,;;

A hash is not known, and then its text comes.
channels 10
reads-packs strange
reads-packs told
reads-packs text
reads-packs told-end
messages end
wrote-packs none text none-end told-reply
holds x,y,;

A block has a negative count.
channels 10
reads-packs hello
reads-packs negative
messages end
wrote-packs hello-reply batch-taken
holds x,y,;

A first request has no handshake.
channels 10
reads-packs append
reads-packs hello
messages bad-handshake 16
wrote-packs
holds ;

A byte comes after a call.
channels 10
reads-packs hello
reads-packs trailing
reads-packs append
messages bad-handshake 16
wrote-packs hello-reply
holds ;

There are 65,537 buffers.
channels 10
reads-packs hello
reads-packs too-many
reads-packs append
messages too-many 65537
wrote-packs hello-reply
holds ;

A read fails.
channels 10
reads-packs hello
breaks
reads-packs append
messages link-fault
wrote-packs hello-reply
holds ;

A reply that fails comes after its commit, and no message after it is read.
channels 10
reads-packs hello
reads-packs append
reads-packs batch
writes-fail 1
messages link-fault
wrote-packs hello-reply
holds a,;

A stop comes before a message that was read.
channels 10
told-after 5
reads-packs hello
reads-packs append
reads-packs batch
messages stopped
wrote-packs hello-reply appended
holds a,;

A batch whose commit fails is in doubt, and is answered so.
doubtful-channel
told-after 100
reads-packs hello
reads-packs append
messages end
wrote-packs hello-reply append-failed";

#[test]
fn sessions_of_messages(rt: HostRuntime) -> Result<(), Fail> {
    pass::<Sessions>(rt.alloc(), MESSAGES)
}
