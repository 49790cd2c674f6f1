// The law of a sink's links.
ghost use Rattle.avro_requests.specs.Requests.{RequestsAreOnLinks};

/// Where a dialer shows its contents, each link that it gave has come back after any list of deliveries of a new sink, once that is closed. Each took
/// the requests of batches whose replies on it said OK, in order, under the serials from 1 on; and after them nothing, or a front of the
/// request of a batch that was refused. The batches on all links, in order, are those that were answered Ok.
pub fn requests_are_on_links<D, L>()
    ensures { RequestsAreOnLinks D L }
{}
