// What a session worker does again and again.
ghost use Rattle.std.specs.Prelude.{◌≡◌, ◌⊎◌, ◌≤◌, Option, Ok, Some, IfOk, OnErr, IfNone, MatchOption};
ghost use Rattle.flume_host.specs.Causes.{HasCause, RisesWhere, Rose};
ghost use Rattle.flume_host.specs.Links.{LinkTold};
ghost use Rattle.flume_host.specs.Listens.{IsSettled, fresh_from, gave_none, gave_one, kept_in, refused_link};
ghost use Rattle.source_put.specs.Tries.{Puts};
ghost use Rattle.netcat_source.specs.Lines.{IsLineLimit};
ghost use Rattle.netcat_source.specs.Into.{TakesLine, sides};
ghost use Rattle.netcat_source.specs.Sessions.{Served};

use crate::session::{LineRules, SessionEnd, serve_netcat};
use channel_face::PutFace;
use flume_host::{Clock, Failed, Halt, Listener};
use plug_in::Interceptor;
use source_put::Intake;
use std::alloc::Global;

/// Accepts a link, serves its lines, and gives it back; or finds none for a while. It is one step of a session worker.
pub fn serve_link<N: Listener, F: PutFace + Drop, B: Interceptor, C: Clock, H: Halt>(
    alloc: Global,
    listener: &mut N,
    rules: &LineRules,
    intake: &mut Intake<F, B>,
    clock: &mut C,
    halt: &mut H,
) -> Result<Option<SessionEnd>, Failed>
    requires { IsLineLimit rules.now.max }
    ensures settled { IsSettled (N.told listener.old) → IsSettled (N.told listener.new) }
    ensures served { IfOk result (λ found. MatchOption found
        (N.told listener.new ≡ gave_none (N.told listener.old))
        (λ end. (now : Option LinkTold) × (N.told listener.new ≡ kept_in
        (gave_one (N.told listener.old)) now)
        × (Served rules.now.max rules.now.ack (TakesLine (Puts F.own F.saw F.seen F.kept)
        intake.old.selector B.intercepts intake.old.host)
        (sides intake.old (C.moments clock.old) (fresh_from (N.told listener.old)))
        (sides intake.new (C.moments clock.new) now) end
        ⊎ ((end ≡ SessionEnd.NoMemory) × (now ≡ fresh_from (N.told listener.old)) ×
        (intake.new ≡ intake.old) × (C.moments clock.new ≡ C.moments clock.old))))) }
    ensures none { IfOk result (λ found. IfNone found ((intake.new ≡ intake.old) ×
        (C.moments clock.new ≡ C.moments clock.old) × Rose (N.waits listener.old)
        (N.waits listener.new))) }
    ensures refused { OnErr result ((N.told listener.new ≡ refused_link (N.told listener.old)) ×
        (intake.new ≡ intake.old) × (C.moments clock.new ≡ C.moments clock.old)) }
    ensures stop { RisesWhere (result ≡ Ok (Some SessionEnd.Stopped)) (H.yes halt.old)
        (H.yes halt.new) }
    ensures cause { HasCause (N.faults listener.old) (N.faults listener.new) result }
    ensures waits { N.waits listener.old ≤ N.waits listener.new }
    ensures endpoint { N.endpoint listener.new ≡ N.endpoint listener.old }
    ensures same { (intake.new.selector ≡ intake.old.selector) ×
        (intake.new.host ≡ intake.old.host) }
{
    match listener.accept() {
        Ok(Some(link)) => {
            let mut link = link;
            let end = serve_netcat(alloc, &mut link, rules, intake, clock, halt);
            listener.keep(link);
            Ok(Some(end))
        }
        Ok(None) => Ok(None),
        Err(e) => Err(e),
    }
}
