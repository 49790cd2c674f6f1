// The laws of what a log file holds, and of what stands at a pointer into it.
ghost use Rattle.channel_log.specs.Laws.{HasOneContent, HasSomeContent};
ghost use Rattle.channel_log.specs.PointerLaws.{OneEventStands, PendingStands, PieceGrows, PutIsRead, PutStays, StandsInEachImage};

/// A log file holds one content.
pub fn one_content()
    ensures { HasOneContent }
{}

/// Whatever its bytes, it holds some content.
pub fn some_content()
    ensures { HasSomeContent }
{}

/// What stands at a pointer is read there.
pub fn a_put_is_read()
    ensures { PutIsRead }
{}

/// One event stands at a pointer.
pub fn one_event_stands()
    ensures { OneEventStands }
{}

/// An event stands at its pointer whatever frames are added, and while one is.
pub fn a_put_stays()
    ensures { PutStays }
{}

/// The event of a record that waits stands at its pointer once the file has its frame.
pub fn a_pending_put_stands()
    ensures { PendingStands }
{}

/// What stands in a part of a file that no later call changes stands in whatever a crash leaves.
pub fn stands_in_each_image()
    ensures { StandsInEachImage }
{}

/// What a window keeps of parts of files it keeps of longer ones.
pub fn a_piece_grows()
    ensures { PieceGrows }
{}
