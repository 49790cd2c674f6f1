// Where the lines of a worker go.
ghost use Rattle.std.specs.Prelude.{◌≡◌, ◌<◌, ◌||◌, List, ℕ, length};
ghost use Rattle.source_put.specs.Tries.{Puts};
ghost use Rattle.netcat_source.specs.Into.{TakesLine};
ghost use Rattle.source_worker.specs.Rounds.{Answer, MendsInto, MendsPort, any_refused};
ghost use Rattle.line_worker.specs.Turns.{MendsWhere, TakesTurn, is_due};
ghost use Rattle.line_worker.specs.Workers.{fed, ends_session};
ghost use Rattle.source_put.specs.Into.{into_of};

use crate::answers::is_due;
use channel_face::{MendFace, PutFace};
use crew::rest;
use flume_host::{Clock, Halt};
use line_session::LineStore;
use netcat_source::{LineVerdict, said_of, take_line};
use plug_in::Interceptor;
use source_put::{Intake, Verdict};
use source_worker::mend_all;
use std::alloc::Global;

/// The lines of a session go through it into the channels, which it mends.
#[derive(Drop)]
pub(crate) struct Lane<F, B, C, H> {
    /// Where memory comes from.
    pub alloc: Global,
    /// Takes the lines.
    pub intake: Intake<F, B>,
    /// Gives the moment of each line, and makes the pauses.
    pub clock: C,
    /// Ends the pauses.
    pub halt: H,
    /// A mend was refused, and is to be tried again.
    pub due: bool,
}

/// How long to pause after a mend that was refused, before the next one, in milliseconds.
const PAUSE: u32 = 1_000;

impl<F: PutFace + MendFace + Drop, B: Interceptor, C: Clock, H: Halt> Lane<F, B, C, H> {
    // Pauses, and mends the channels again, where a mend was refused.
    fn mend_again(&mut self)
        ensures mends { (answers : List Answer) × MendsWhere
            (MendsInto (MendsPort F.own F.saw F.seen F.kept F.on_disk))
            self.old.due (into_of self.old.intake (C.moments self.old.clock)) answers
            (into_of self.new.intake (C.moments self.new.clock))
            × (self.new.due ≡ any_refused answers) }
        ensures same { (self.new.intake.selector ≡ self.old.intake.selector)
            × (self.new.intake.host ≡ self.old.intake.host) }
    {
        if self.due {
            let _stopped = rest(&mut self.clock, &mut self.halt, PAUSE);
            self.due = mend_all(&mut self.intake);
        }
    }

    // Mends the channels after a line, where its verdict asks for it.
    fn mend_behind(&mut self, verdict: &Verdict)
        ensures mends { (answers : List Answer) × MendsWhere
            (MendsInto (MendsPort F.own F.saw F.seen F.kept F.on_disk))
            (is_due self.old.due verdict.now)
            (into_of self.old.intake (C.moments self.old.clock)) answers
            (into_of self.new.intake (C.moments self.new.clock))
            × (self.new.due ≡ (self.old.due || any_refused answers)) }
        ensures same { (self.new.intake.selector ≡ self.old.intake.selector)
            × (self.new.intake.host ≡ self.old.intake.host) }
    {
        if is_due(self.due, verdict) {
            self.due = mend_all(&mut self.intake);
        }
    }
}

impl<F: PutFace + MendFace + Drop, B: Interceptor, C: Clock, H: Halt> LineStore
    for Lane<F, B, C, H> {
    ghost takes = { λ old line said new. TakesTurn
        (TakesLine (Puts F.own F.saw F.seen F.kept)
        old.intake.selector B.intercepts old.intake.host)
        (MendsInto (MendsPort F.own F.saw F.seen F.kept F.on_disk))
        (fed old.intake (C.moments old.clock) old.due) line said
        (fed new.intake (C.moments new.clock) new.due)
        × (new.intake.selector ≡ old.intake.selector) × (new.intake.host ≡ old.intake.host) };

    ghost ready = { λ lane. Unit {0} };

    ghost stops = { ends_session };

    fn take_line(&mut self, line: &[u8]) -> LineVerdict {
        self.mend_again();
        let verdict = take_line(self.alloc, &mut self.intake, &mut self.clock, line);
        self.mend_behind(&verdict);
        said_of(&verdict)
    }

    fn is_last(&self, verdict: LineVerdict) -> bool {
        matches!(verdict, LineVerdict::NoMemory)
    }
}
