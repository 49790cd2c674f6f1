// Crashes between two runs.
use crate::scene::Scene;
use host_memory::{MemDisk, Stood};

fn stood_of(stood: &str) -> Option<Stood> {
    match stood {
        "old" => Some(Stood::Old),
        "new" => Some(Stood::New),
        _ => match stood.split_once(':')? {
            ("front", most) => Some(Stood::Front(most.parse::<usize>().ok()?)),
            ("garbage", byte) => Some(Stood::Garbage(byte.parse::<u8>().ok()?)),
            _ => None,
        },
    }
}

fn stopped(disk: &MemDisk, stop: &str) -> Option<MemDisk> {
    let (moment, stood) = stop.split_once(':')?;
    let stood = stood_of(stood)?;
    let moment = match moment {
        "end" => disk.moments(),
        _ => moment.parse::<u64>().ok()?,
    };
    disk.stopped_at(moment, &[stood]).ok()
}

/// The folder `d` of the host, as a crash leaves it, as `5:front:20` or `end:old`.
pub fn folder_at(scene: &Scene, stop: &str) -> Option<MemDisk> {
    stopped(scene.host()?.disk("d")?, stop)
}

/// A crash: what it leaves of the folder is given.
pub fn crash(scene: &mut Scene, stop: &str) -> bool {
    scene.given.disk = folder_at(scene, stop);
    scene.host = None;
    scene.given.disk.is_some()
}
