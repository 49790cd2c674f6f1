// Tokens of open transactions.
ghost use Rattle.std.specs.Prelude.{◌≡◌};
ghost use Rattle.channel_face.specs.Token.{Token};

use std::marker::{Model, PhantomData};

/// Says of a token that its transaction is of puts.
#[derive(Drop)]
pub struct OfPuts;

/// Says of a token that its transaction is of takes.
#[derive(Drop)]
pub struct OfTakes;

/// The token of an open transaction of puts.
pub type PutTxn = Txn<OfPuts>;

/// The token of an open transaction of takes.
pub type TakeTxn = Txn<OfTakes>;

/// The token of an open transaction, of puts or of takes. It is not `Drop`, so the compiler refuses code that lets one go: it
/// has to be staged, committed or rolled back.
pub struct Txn<K> {
    own_life: u64,
    own_number: u64,
    of: PhantomData<K>,
}

impl<K> Model for Txn<K> {
    ghost use Rattle.channel_face.specs.Token.{Token};

    ghost Value = { Token };

    ghost view = { λ t. record { life = t.own_life; number = t.own_number } };
}

impl<K> Txn<K> {
    /// A token of this life and this number, for those who make channels.
    pub fn new(life: u64, number: u64) -> Txn<K>
        ensures { result ≡ record { life = life; number = number } }
    {
        Txn {
            own_life: life,
            own_number: number,
            of: PhantomData,
        }
    }

    /// The life and the number, for those who make channels. The token ends.
    pub fn into_numbers(self) -> (u64, u64)
        ensures { result ≡ (self.life, self.number) }
    {
        let Txn {
            own_life,
            own_number,
            of: _,
        } = self;
        (own_life, own_number)
    }

    /// The life of the channel in which the transaction was begun.
    pub fn life(&self) -> u64
        ensures { result ≡ self.now.life }
    {
        self.own_life
    }

    /// The number of the transaction.
    pub fn number(&self) -> u64
        ensures { result ≡ self.now.number }
    {
        self.own_number
    }
}
