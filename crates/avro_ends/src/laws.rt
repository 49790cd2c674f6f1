// What follows for whole sessions. These functions do nothing: each states a law.
ghost use Rattle.avro_ends.specs.Exchanges.{TakesBatch};
ghost use Rattle.avro_ends.specs.Laws.{IsOneDialogue, CutsIntoMessages, SendsReplies};
ghost use Rattle.source_put.specs.Tries.{Puts};

use channel_face::PutFace;
use plug_in::Interceptor;
use source_put::Intake;

/// A session's messages, verdicts and replies are one dialogue of a connection.
pub fn one_session<F: PutFace + Drop, B: Interceptor>(intake: &Intake<F, B>)
    ensures dialogue { IsOneDialogue
        (TakesBatch (Puts F.own F.saw F.seen F.kept) intake.now.selector B.intercepts
        intake.now.host) }
{}

/// The bytes of a session are cut into its messages, and its replies are packs.
pub fn one_stream()
    ensures cut { CutsIntoMessages }
    ensures sends { SendsReplies }
{}
