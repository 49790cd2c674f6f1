// Laws of rolled files. These functions do nothing: each states a law.
ghost use Rattle.roll_sink.specs.Runs.{RunsFill};

/// Over any list of deliveries of a new sink, the files that it began hold the batches that were answered Ok, each whole in one
/// file, once and in order. After its batches a file has nothing, or a front of a batch that was refused for a fault; no other
/// file changed.
pub fn delivered_batches_are_in_files()
    ensures { RunsFill }
{}
