// What passes between nodes.
ghost use Rattle.std.specs.Prelude.{◌≡◌, ◌∷◌, [], ℕ, Option, not};
ghost use Rattle.hop_core.specs.DeliveryView.{delivery_of};
ghost use Rattle.world_laws.specs.Steps.{is_fresh};
ghost use Rattle.world_laws.specs.World as Face;

use event_core::Batch;
use std::marker::Model;

/// A connection, and the serial of a request on it.
#[derive(Clone, Copy)]
pub struct Tag {
    pub connection: u64,
    pub serial: u32,
}

impl Model for Tag {
    ghost use Rattle.world_laws.specs.World.{Tag};

    ghost Value = { Tag };

    ghost view = { λ t. record { connection = t.connection; serial = t.serial } };

    ghost inverse = { λ t. record { connection = t.connection; serial = t.serial } };
}

/// What makes a take final: an output place of its node, or an acknowledgement of another one.
#[derive(Clone, Copy)]
pub struct Delivery {
    by: Option<u32>,
    place: u64,
}

impl Model for Delivery {
    ghost use Rattle.world_laws.specs.World.{Delivery};
    ghost use Rattle.hop_core.specs.DeliveryView.{delivery_of, delivery_back, delivery_back_ok};

    ghost Value = { Delivery };

    ghost view = { λ d. delivery_of d.by d.place };

    ghost inverse = { delivery_back };

    ghost inverse_ok = { delivery_back_ok };
}

impl Delivery {
    /// An output place.
    pub(crate) fn output(place: u64) -> Delivery
        ensures { result ≡ Face.Output place }
    {
        Delivery { by: None, place }
    }

    /// The node of which it is an acknowledgement, or none for an output place.
    pub fn by(self) -> Option<u32>
        ensures { (place : ℕ) × (delivery_of result place ≡ self) }
    {
        self.by
    }

    /// Its place there.
    pub fn place(self) -> u64
        ensures { (by : Option ℕ) × (delivery_of by result ≡ self) }
    {
        self.place
    }

    /// An acknowledgement of a node.
    pub(crate) fn acked(node: u32, place: u64) -> Delivery
        ensures { result ≡ Face.Acked node place }
    {
        Delivery {
            by: Some(node),
            place,
        }
    }
}

/// What a packet has beside its tag.
#[derive(Drop)]
pub enum Body {
    /// A batch for the node.
    Request { batch: Batch },
    /// OK, by the acknowledgement of the node at this place.
    Reply { place: u64 },
}

/// A request for a node, or a reply of one.
#[derive(Drop)]
pub struct Packet {
    pub node: u32,
    pub tag: Tag,
    pub body: Body,
}

impl Model for Packet {
    ghost use Rattle.world_laws.specs.World.{Packet};
    ghost use Rattle.hop_core.specs.PacketView.{packet_of};

    ghost Value = { Packet };

    ghost view = { λ p. packet_of p.node p.tag p.body };
}

impl Packet {
    /// Whether it is a request with this tag.
    pub(crate) fn is_request_of(&self, tag: Tag) -> bool
        ensures { result ≡ not (is_fresh tag (self.now ∷ [])) }
    {
        match &self.body {
            Body::Request { batch: _ } => {
                self.tag.connection == tag.connection && self.tag.serial == tag.serial
            }
            Body::Reply { place: _ } => false,
        }
    }
}
