// Room for the ports of a run, and for the workers that have them.
ghost use Rattle.std.specs.Prelude.{◌≤◌, [], IfOk, length};
ghost use Rattle.run_tracks.specs.Places.{Zips};
ghost use Rattle.run_settling.specs.Draining.{HasRoom};
ghost use Rattle.run_working.specs.Runs.{HaveRooms};

use channel_face::Channel;
use keep_worker::KeepWorker;
use line_worker::LineWorker;
use run_staff::Workers;
use shared_channel::Pass;
use sink_worker::SinkWorker;
use source_worker::ListenWorker;
use std::alloc::{AllocError, Global};
use std::sync::Wait;
use two_channels::EitherPort;

// Room for the ports of listeners, a list for each.
fn rooms_of_listeners<'a, R: Wait + 'a, A: Channel + 'a, B: Channel + 'a, N, C, K>(
    alloc: Global,
    jobs: &[ListenWorker<Pass, N, C, K>],
) -> Result<Vec<Vec<EitherPort<'a, R, A, B>>>, AllocError>
    ensures { IfOk result (λ rooms. Zips (λ job room. HasRoom job.ports.items room) jobs.now
        rooms.items) }
{
    let mut rooms = Vec::with_capacity(alloc, jobs.len())?;
    for job in jobs {
        let room = Vec::with_capacity(alloc, job.ports.len())?;
        rooms.push(room)?;
    }
    Ok(rooms)
}

// Room for the ports of workers of lines, a list for each.
fn rooms_of_lines<'a, R: Wait + 'a, A: Channel + 'a, B: Channel + 'a, I, O, C, K>(
    alloc: Global,
    jobs: &[LineWorker<Pass, I, O, C, K>],
) -> Result<Vec<Vec<EitherPort<'a, R, A, B>>>, AllocError>
    ensures { IfOk result (λ rooms. Zips (λ job room. HasRoom job.ports.items room) jobs.now
        rooms.items) }
{
    let mut rooms = Vec::with_capacity(alloc, jobs.len())?;
    for job in jobs {
        let room = Vec::with_capacity(alloc, job.ports.len())?;
        rooms.push(room)?;
    }
    Ok(rooms)
}

/// Room for the workers of a run with ports, and for the ports.
#[derive(Drop)]
pub(crate) struct Rooms<'a, R: Wait, A: Channel, B: Channel, S, N, I, O, C, K> {
    pub keepers: Vec<KeepWorker<EitherPort<'a, R, A, B>, C>>,
    pub sinks: Vec<SinkWorker<EitherPort<'a, R, A, B>, S, C>>,
    pub listeners: Vec<ListenWorker<EitherPort<'a, R, A, B>, N, C, K>>,
    pub listener_ports: Vec<Vec<EitherPort<'a, R, A, B>>>,
    pub lines: Vec<LineWorker<EitherPort<'a, R, A, B>, I, O, C, K>>,
    pub line_ports: Vec<Vec<EitherPort<'a, R, A, B>>>,
}

/// Makes room for the workers of a run with ports, and for the ports.
pub(crate) fn rooms_of<
    'a,
    R: Wait + 'a,
    A: Channel + 'a,
    B: Channel + 'a,
    S: Drop,
    N: Drop,
    I: Drop,
    O: Drop,
    C: Drop,
    K: Drop,
>(
    alloc: Global,
    jobs: &Workers<Pass, S, N, I, O, C, K>,
) -> Result<Rooms<'a, R, A, B, S, N, I, O, C, K>, AllocError>
    ensures { IfOk result (λ rooms. HaveRooms jobs.now rooms) }
{
    let keepers = Vec::with_capacity(alloc, jobs.keepers.len())?;
    let sinks = Vec::with_capacity(alloc, jobs.sinks.len())?;
    let listeners = Vec::with_capacity(alloc, jobs.listeners.len())?;
    let listener_ports = rooms_of_listeners(alloc, jobs.listeners.as_slice())?;
    let lines = Vec::with_capacity(alloc, jobs.lines.len())?;
    let line_ports = rooms_of_lines(alloc, jobs.lines.as_slice())?;
    Ok(Rooms {
        keepers,
        sinks,
        listeners,
        listener_ports,
        lines,
        line_ports,
    })
}
