// The law of what stands at a channel's pointers.
ghost use Rattle.file_channel.specs.Images.{StandsInImages};

/// A channel's events stand at their pointers in whatever a crash leaves, unless they wait for a flush.
pub fn an_event_stands_in_each_image()
    ensures { StandsInImages }
{}
