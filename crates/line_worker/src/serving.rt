// One session of a worker.
ghost use Rattle.std.specs.Prelude.{◌≡◌, ◌≢◌};
ghost use Rattle.source_put.specs.Tries.{Puts};
ghost use Rattle.netcat_source.specs.Into.{TakesLine};
ghost use Rattle.netcat_source.specs.Lines.{IsLineLimit};
ghost use Rattle.line_session.specs.Sessions.{HasCauseOf, Served, ends_of};
ghost use Rattle.source_worker.specs.Rounds.{MendsInto, MendsPort};
ghost use Rattle.line_worker.specs.Turns.{TakesTurn};
ghost use Rattle.line_worker.specs.Workers.{Session, fed, ends_session, talk_of};

use crate::lane::Lane;
use channel_face::{MendFace, PutFace};
use flume_host::{Clock, Halt, Sink, Source};
use line_session::{SessionEnd, serve_lines};
use netcat_source::LineRules;
use plug_in::Interceptor;

impl<F: PutFace + MendFace + Drop, B: Interceptor, C: Clock, H: Halt> Lane<F, B, C, H> {
    // Serves the lines of an input until it ends or something else ends the session.
    fn serve<I: Source, O: Sink>(
        &mut self,
        input: &mut I,
        output: &mut O,
        rules: &LineRules,
    ) -> SessionEnd
        requires { IsLineLimit rules.now.max }
        ensures served { Served rules.now.max rules.now.ack ends_session
            (TakesTurn (TakesLine
            (Puts F.own F.saw F.seen F.kept)
            self.old.intake.selector B.intercepts self.old.intake.host)
            (MendsInto (MendsPort F.own F.saw F.seen F.kept F.on_disk)))
            (ends_of (I.left input.old)
            (fed self.old.intake (C.moments self.old.clock) self.old.due)
            (O.took output.old))
            (ends_of (I.left input.new)
            (fed self.new.intake (C.moments self.new.clock) self.new.due)
            (O.took output.new)) result }
        ensures cause { HasCauseOf result (I.faults input.old) (I.faults input.new)
            (O.faults output.old) (O.faults output.new) }
        ensures handed { result ≢ SessionEnd.WriteFault → O.handed output.new ≡ O.took output.new }
    {
        let alloc = self.alloc;
        serve_lines(alloc, input, self, output, rules)
    }

    /// Serves one session. Without a chain there was no memory for it to begin.
    pub(crate) fn session<I: Source, O: Sink>(
        &mut self,
        built: bool,
        input: &mut I,
        output: &mut O,
        rules: &LineRules,
    ) -> SessionEnd
        requires { IsLineLimit rules.now.max }
        ensures session { Session rules.now.max rules.now.ack
            (TakesTurn (TakesLine
            (Puts F.own F.saw F.seen F.kept)
            self.old.intake.selector B.intercepts self.old.intake.host)
            (MendsInto (MendsPort F.own F.saw F.seen F.kept F.on_disk)))
            built result
            (fed self.old.intake (C.moments self.old.clock) self.old.due)
            (fed self.new.intake (C.moments self.new.clock) self.new.due)
            (talk_of I.left I.faults O.took O.handed O.faults input.old output.old)
            (talk_of I.left I.faults O.took O.handed O.faults input.new output.new) }
    {
        if built {
            self.serve(input, output, rules)
        } else {
            SessionEnd::NoMemory
        }
    }
}
