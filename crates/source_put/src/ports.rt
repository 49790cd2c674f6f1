// The channels of a source, each lent by its place.
ghost use Rattle.std.specs.Prelude.{◌≡◌, ◌<◌, ◌^◌, Some, length, slice_get, slice_set};
ghost use Rattle.std.specs.Borrow.{Lends, sem};
ghost use Rattle.source_put.specs.contracts.ports.Ports.{the_row};

use std::marker::Model;

/// Channels in their order, fewer than 2^32.
#[derive(Drop)]
pub struct Ports<F> {
    list: Vec<F>,
}

impl<F> Model for Ports<F> {
    ghost use Rattle.std.specs.Prelude.{List, ◌<◌, ◌^◌, length};

    ghost Value = { List F };

    ghost view = { λ p. p.list.items };

    ghost invariant = { λ p. length p.list.items < 2 ^ 32 };
}

impl<F> Ports<F> {
    pub(crate) fn new(list: Vec<F>) -> Ports<F>
        requires { length list.items < 2 ^ 32 }
        ensures { result ≡ list.items }
    {
        Ports { list }
    }

    // How many there are.
    pub(crate) fn count(&self) -> u32
        ensures { result ≡ length self.now }
    {
        self.list.len() as u32
    }

    // Lends the one at a place. What was left after the loan is then there, and the others are the same.
    pub(crate) fn at(&mut self, place: u32) -> &mut F
        requires { place < length self.old }
        ensures* writes_back { sem 𝓛 (Lends (the_row F.row) F.row self.entry result
            (slice_set self.old place)) }
        ensures value { slice_get self.old place ≡ Some result.now }
    {
        &mut self.list[place as usize]
    }

    // Hands them over.
    pub(crate) fn into_list(self) -> Vec<F>
        ensures { result.items ≡ self }
    {
        self.list
    }
}
