//! The agent's program: the real host, and the one call that does all the rest.
#![tactic(auto)]

use agent_run::run_agent;
use flume_host::Host;
use host_real::RealHost;
use plan_objects::Plugins;
use shipped_objects::{Sample, Tally};
use std::alloc::Global;
use std::env;
use std::fs::File;
use std::io::ErrorKind;
use std::process::ExitCode;
use std::sync::Wait;
use std::thread::Threads;

// The words after the program's name, if there is memory for them. Where one isn't text there are none, which is no command.
fn words(rt: HostRuntime) -> Option<Vec<String>> {
    match env::args(&rt) {
        Ok(args) => args.skip(1).collect(rt.alloc()).ok(),
        Err(error) if error.kind() == ErrorKind::OutOfMemory => None,
        Err(_) => Some(Vec::new(rt.alloc())),
    }
}

// A file that takes no bytes and gives none.
fn nothing(rt: &HostRuntime) -> Option<File> {
    File::open(rt, "/dev/null").ok()
}

// The exit status of a run with these words and these objects.
fn status_with<R: Threads + Wait + Sync>(
    rt: &R,
    alloc: Global,
    words: &[String],
    host: &mut RealHost,
    plugins: Plugins,
) -> u8 {
    run_agent(rt, alloc, words, host, plugins).status
}

// The exit status of a run to which the interceptor `sample` and the sink `tally` are handed in, if there is memory for them. They are
// boxed here, since a library may not make such boxes and hand them out; nor may a function here, so the run is called from this one.
fn status_of<R: Threads + Wait + Sync>(
    rt: &R,
    alloc: Global,
    words: &[String],
    host: &mut RealHost,
) -> Option<u8> {
    let mut plugins = Plugins::new(alloc);
    let sample = Box::new(alloc, Sample { drops: false }).ok()?;
    plugins
        .add_step(String::from_str(alloc, "sample").ok()?, sample)
        .ok()?;
    let tally = Box::new(alloc, Tally { count: 0 }).ok()?;
    plugins
        .add_sink(String::from_str(alloc, "tally").ok()?, tally)
        .ok()?;
    Some(status_with(rt, alloc, words, host, plugins))
}

fn main(rt: HostRuntime) -> ExitCode {
    // A standard stream that was closed leaves its number free, and the next file that is opened gets it. These three take
    // such numbers, so that no file of a folder is read or written as a stream.
    let streams = [nothing(&rt), nothing(&rt), nothing(&rt)];
    let mut host = RealHost::new(rt);
    let status = match words(rt) {
        Some(words) => status_of(&rt, rt.alloc(), &words, &mut host),
        None => None,
    };
    if status.is_none() {
        host.say("flume: no memory");
    }
    drop(streams);
    ExitCode::from(status.unwrap_or(5))
}
