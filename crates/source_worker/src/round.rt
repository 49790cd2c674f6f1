// One round of a listener's worker.
ghost use Rattle.std.specs.Prelude.{◌≡◌, List, false};
ghost use Rattle.flume_host.specs.Causes.{RisesWhere};
ghost use Rattle.flume_host.specs.Listens.{IsSettled};
ghost use Rattle.source_put.specs.Into.{into_of};
ghost use Rattle.source_put.specs.Tries.{Puts};
ghost use Rattle.source_worker.specs.Rounds.{Answer, IsStopped, IsStoppedEnd, IsUnserved, IsUnservedEnd, Makes, MendsInto, MendsPort, Serves, Session};
ghost use Rattle.source_worker.specs.Workers.{HasLimit, heard_of, stood};

use crate::answers::is_due;
use crate::ends::{LinkEnd, SessionRules};
use crate::listens::Listens;
use crate::mending::mend_all;
use crate::service::Service;
use avro_ends::{AvroEnd, serve_avro};
use channel_face::{MendFace, PutFace};
use flume_host::{Clock, Failed, Halt, Link};
use netcat_source::{SessionEnd, serve_netcat};
use plug_in::Interceptor;
use std::alloc::Global;

impl<F: PutFace + Drop, B: Interceptor> Service<F, B> {
    // Serves the lines or the calls of a link. Without a chain there was no memory for the session to begin.
    fn session<L: Link, C: Clock, H: Halt>(
        &mut self,
        alloc: Global,
        link: &mut L,
        rules: &SessionRules,
        clock: &mut C,
        halt: &mut H,
    ) -> LinkEnd
        requires { HasLimit rules.now }
        ensures session { Session rules.now (Puts F.own F.saw F.seen F.kept)
            self.old.intake.selector B.intercepts self.old.intake.host
            (into_of self.old.intake (C.moments clock.old)) (L.told link.old) result
            (into_of self.new.intake (C.moments clock.new)) (L.told link.new) }
        ensures unserved { self.old.built ≡ false → IsUnservedEnd result }
        ensures stop { RisesWhere (IsStoppedEnd result) (H.yes halt.old) (H.yes halt.new) }
        ensures same { (self.new.intake.selector ≡ self.old.intake.selector)
            × (self.new.intake.host ≡ self.old.intake.host) × (self.new.built ≡ self.old.built)
            × (self.new.due ≡ self.old.due) }
    {
        match (rules, self.built) {
            (SessionRules::Lines(rules), true) => {
                LinkEnd::Lines(serve_netcat(alloc, link, rules, &mut self.intake, clock, halt))
            }
            (SessionRules::Lines(_), false) => LinkEnd::Lines(SessionEnd::NoMemory),
            (SessionRules::Avro, true) => {
                LinkEnd::Avro(serve_avro(alloc, link, &mut self.intake, clock, halt))
            }
            (SessionRules::Avro, false) => LinkEnd::Avro(AvroEnd::NoMemory),
        }
    }

    // Accepts a link, serves it and gives it back, or finds none for a while.
    fn serve<L: Link, N: Listens<L>, C: Clock, H: Halt>(
        &mut self,
        alloc: Global,
        listener: &mut N,
        rules: &SessionRules,
        clock: &mut C,
        halt: &mut H,
    ) -> Result<Option<LinkEnd>, Failed>
        requires { HasLimit rules.now }
        ensures serves { Serves
            (Session rules.now (Puts F.own F.saw F.seen F.kept) self.old.intake.selector
            B.intercepts
            self.old.intake.host) result
            (stood self.old.intake (C.moments clock.old)
            (heard_of N.told N.faults N.waits listener.old) self.old.due)
            (stood self.new.intake (C.moments clock.new)
            (heard_of N.told N.faults N.waits listener.new) self.new.due) }
        ensures unserved { self.old.built ≡ false → IsUnserved result }
        ensures settled { IsSettled (N.told listener.old) → IsSettled (N.told listener.new) }
        ensures endpoint { N.endpoint listener.new ≡ N.endpoint listener.old }
        ensures stop { RisesWhere (IsStopped result) (H.yes halt.old) (H.yes halt.new) }
        ensures same { (self.new.intake.selector ≡ self.old.intake.selector)
            × (self.new.intake.host ≡ self.old.intake.host) × (self.new.built ≡ self.old.built)
            × (self.new.due ≡ self.old.due) }
    {
        match listener.next_link() {
            Ok(Some(link)) => {
                let mut link = link;
                let end = self.session(alloc, &mut link, rules, clock, halt);
                listener.take_back(link);
                Ok(Some(end))
            }
            Ok(None) => Ok(None),
            Err(e) => Err(e),
        }
    }
}

impl<F: PutFace + MendFace + Drop, B: Interceptor> Service<F, B> {
    /// Accepts a link and serves it, or finds none for a while; and mends the channels after a session, and where a mend
    /// was refused before.
    pub(crate) fn round<L: Link, N: Listens<L>, C: Clock, H: Halt>(
        &mut self,
        alloc: Global,
        listener: &mut N,
        rules: &SessionRules,
        clock: &mut C,
        halt: &mut H,
    ) -> Result<Option<LinkEnd>, Failed>
        requires { HasLimit rules.now }
        ensures makes { (answers : List Answer) × Makes
            (Session rules.now
            (Puts F.own F.saw F.seen F.kept)
            self.old.intake.selector B.intercepts self.old.intake.host)
            (MendsInto (MendsPort F.own F.saw F.seen F.kept F.on_disk))
            (record { found = result; mends = answers })
            (stood self.old.intake (C.moments clock.old)
            (heard_of N.told N.faults N.waits listener.old) self.old.due)
            (stood self.new.intake (C.moments clock.new)
            (heard_of N.told N.faults N.waits listener.new) self.new.due) }
        ensures unserved { self.old.built ≡ false → IsUnserved result }
        ensures settled { IsSettled (N.told listener.old) → IsSettled (N.told listener.new) }
        ensures endpoint { N.endpoint listener.new ≡ N.endpoint listener.old }
        ensures stop { RisesWhere (IsStopped result) (H.yes halt.old) (H.yes halt.new) }
        ensures same { (self.new.intake.selector ≡ self.old.intake.selector)
            × (self.new.intake.host ≡ self.old.intake.host) × (self.new.built ≡ self.old.built) }
    {
        let found = self.serve(alloc, listener, rules, clock, halt);
        if is_due(self.due, &found) {
            self.due = mend_all(&mut self.intake);
        }
        found
    }
}
