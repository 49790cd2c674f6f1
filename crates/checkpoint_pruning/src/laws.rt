// The law of a folder that is pruned.
ghost use Rattle.checkpoint_pruning.specs.Laws.{PrunedAtAnyMoment};

/// Where each image of a folder recovers to the same, by a checkpoint that needs only the files that are kept, a crash at any
/// moment of a prune leaves an image that does.
pub fn pruned_at_any_moment()
    ensures { PrunedAtAnyMoment }
{}
