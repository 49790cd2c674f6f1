// The names of the host.
ghost use Rattle.std.specs.Prelude.{◌≡◌, ◌||◌, ℕ, IfErr, IfOk, IsTrue, true, false, length, string_bytes};
ghost use Rattle.std.specs.List.{list_any, AllZip};
ghost use Rattle.flume_host.specs.HandedOut.{FaultsBy};
ghost use Rattle.agent_outside.specs.Names.{AreTold, HostsAreRight, IsTold, asks, wants};

use agent_plan::{SourcePlan, StepPlan};
use flume_host::{Host, NameRefused};
use interceptors::Step;
use source_put::HostNames;
use std::alloc::Global;

// Whether an interceptor sets a header to the host's address, or to its name.
fn asks(step: &StepPlan, use_ip: bool) -> bool
    ensures { result ≡ asks use_ip step.now }
{
    match step {
        StepPlan::Step(
            Step::Host {
                use_ip: wanted,
                header: _,
                preserve: _,
            },
        ) => { if use_ip { *wanted } else { !*wanted } }
        _ => false,
    }
}

// Whether one of these interceptors does.
fn wants(steps: &[StepPlan], use_ip: bool) -> bool
    ensures { result ≡ list_any (asks use_ip) steps.now }
{
    for step in steps {
        if asks(step, use_ip) {
            return true;
        }
    }
    false
}

// The host's name, or its address, where it is wanted, and else an empty text.
fn wanted_name<H: Host>(
    alloc: Global,
    host: &mut H,
    wanted: bool,
    use_ip: bool,
) -> Result<String, NameRefused>
    ensures told { IfOk result (λ text. IsTold wanted use_ip (H.state host.old).name
        (H.state host.old).address (string_bytes text)) }
    ensures asked { IfErr result (λ refused. IsTrue wanted) }
    ensures state { (n : ℕ) × (H.state host.new ≡ record (H.state host.old) { faults = n })
        × FaultsBy result (H.state host.old).faults n }
    ensures folders { H.folders host.new ≡ H.folders host.old }
{
    if wanted {
        host.host_name(use_ip)
    } else {
        Ok(String::new(alloc))
    }
}

/// The host's name and its address, as the interceptors of a source are told of them. The host is asked only for what one of
/// them sets a header to, and what was not asked for is empty; so where none sets one, nothing is refused. `Failed` comes exactly
/// where the host has counted a fault.
pub fn source_names<H: Host>(
    alloc: Global,
    host: &mut H,
    source: &SourcePlan,
) -> Result<HostNames, NameRefused>
    ensures told { IfOk result (AreTold (H.state host.old).name (H.state host.old).address
        source.now) }
    ensures asked { IfErr result (λ refused. IsTrue (wants false source.now || wants true
        source.now)) }
    ensures state { (n : ℕ) × (H.state host.new ≡ record (H.state host.old) { faults = n })
        × FaultsBy result (H.state host.old).faults n }
    ensures folders { H.folders host.new ≡ H.folders host.old }
{
    let steps = source.steps.as_slice();
    let name = match wanted_name(alloc, host, wants(steps, false), false) {
        Ok(name) => name,
        Err(refused) => return Err(refused),
    };
    match wanted_name(alloc, host, wants(steps, true), true) {
        Ok(address) => Ok(HostNames { name, address }),
        Err(refused) => Err(refused),
    }
}

/// The same for each of these sources, in order. At the first refusal no further one is asked for.
pub fn names_of<H: Host>(
    alloc: Global,
    host: &mut H,
    sources: &[SourcePlan],
) -> Result<Vec<HostNames>, NameRefused>
    ensures told { IfOk result (λ names. AllZip (AreTold (H.state host.old).name
        (H.state host.old).address) sources.now names.items) }
    ensures many { IfOk result (λ names. length names.items ≡ length sources.now) }
    ensures state { (n : ℕ) × (H.state host.new ≡ record (H.state host.old) { faults = n })
        × FaultsBy result (H.state host.old).faults n }
    ensures folders { H.folders host.new ≡ H.folders host.old }
{
    let mut names = Vec::new(alloc);
    for source in sources {
        let found = match source_names(alloc, host, source) {
            Ok(found) => found,
            Err(refused) => return Err(refused),
        };
        if let Err(_) = names.push(found) {
            return Err(NameRefused::NoMemory);
        }
    }
    Ok(names)
}

/// With the names of a source, each of its interceptors that sets a header to the host's name or to its address sets it to what
/// the host tells.
pub fn hosts_are_right()
    ensures { HostsAreRight }
{}
