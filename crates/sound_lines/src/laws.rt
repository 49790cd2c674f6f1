// Laws of lines. These functions do nothing: each states a law.
ghost use Rattle.sound_lines.specs.Laws.{LineIsSound, LinesAreSound};
ghost use Rattle.sound_lines.specs.Links.{LinksAreSound};

use plug_in::Interceptor;

/// Where nothing failed in the channels of a source, and none was disturbed by another pass, a line that it took was put into each channel
/// that it has to reach, unless there was no memory for it, an interceptor made its event larger than an event may be, or such a channel
/// refused it for a limit: it was full, had as many transactions open as may be, had a number at its end, or keeps no event so large.
pub fn line_is_sound<K: Interceptor>()
    ensures { LineIsSound K.intercepts }
{}

/// So it is with each line of a whole session, whatever mends were among them: each is answered `OK` but for these causes.
pub fn lines_are_sound<K: Interceptor>()
    ensures { LinesAreSound K.intercepts }
{}

/// And so it is with each line of each session on the links of a listener's worker.
pub fn links_are_sound<K: Interceptor>()
    ensures { LinksAreSound K.intercepts }
{}
