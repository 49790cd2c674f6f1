// What follows for whole turns. These functions do nothing: each states a law.
ghost use Rattle.sink_runner.specs.Laws.{CommitsWhatItDelivered};

use channel_face::TakeFace;
use plug_in::EventSink;

/// A turn that goes to commit its transaction has delivered just the events that the transaction took, in order, and the
/// delivery answered Ok.
pub fn commits_what_it_delivered<T: TakeFace, S: EventSink>(face: &T)
    ensures { CommitsWhatItDelivered (T.saw face.now) (T.seen face.now) S.delivers }
{}
