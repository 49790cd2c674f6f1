//! What a seat at the table knows.
use std::marker::Model;

/// What a seat knows: contracts see it as a `View`. No value of it is made.
pub struct SeatView {}

impl Model for SeatView {
    ghost use Rattle.channel_lock.specs.Views.{View, gone};

    ghost Value = { View };

    ghost view = { λ _. gone };
}
