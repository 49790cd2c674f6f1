// What is said on standard error of a run that did not end well.
ghost use Rattle.std.specs.Prelude.{◌≡◌};

use agent_words::RunError;
use flume_host::Host;
use std::alloc::Global;

/// Writes the line of an error to standard error. Where there is no memory for it, it says so.
pub fn say_error<H: Host>(alloc: Global, host: &mut H, error: &RunError)
    ensures state { H.state host.new ≡ H.state host.old }
    ensures folders { H.folders host.new ≡ H.folders host.old }
{
    match format!(in alloc; "{error}") {
        Ok(line) => host.say(line.as_str()),
        Err(_) => host.say("flume: no memory"),
    }
}
