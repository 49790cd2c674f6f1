// What a sink shows of its dialer.
ghost use Rattle.avro_ends.specs.Dialing.{DialTold};

/// A sink whose links a dialer makes.
pub trait HasDialer {
    /// What it shows of its dialer.
    ghost dial: { DialTold Self };
}
