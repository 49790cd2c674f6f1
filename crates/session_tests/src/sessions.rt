// Sessions over channels, on which the lines of a scenario work.
ghost use Rattle.std.specs.Prelude.{◌≡◌, ◌≤◌, IfSome};
ghost use Rattle.netcat_source.specs.Lines.{IsLineLimit};

use crate::channels::{bodies, failing, filter, in_memory, intake_over};
use crate::packs::add_packs;
use crate::script::{Script, add_step, empty, link_of};
use avro_ends::{AvroEnd, serve_avro};
use channel_face::{Channel, OwnFace};
use file_channel::FileChannel;
use flume_host::Failed;
use host_memory::{MemClock, MemDisk, MemHalt, MemLink, MemListener, Offer};
use memory_channel::MemoryChannel;
use netcat_source::{LineRules, SessionEnd, serve_link, serve_netcat};
use scenarios::{Scene, is_text, number_of, word_and_rest};
use source_put::{ChainLink, Intake};
use std::alloc::Global;
use std::mem;

// What an intake is over.
#[derive(Drop)]
enum Over {
    Nothing,
    Memory(Intake<OwnFace<MemoryChannel>>),
    Disk(Intake<OwnFace<FileChannel<MemDisk>>>),
}

/// What the next session is over, and what came of the last one.
#[derive(Drop)]
pub struct Sessions {
    alloc: Global,
    /// What its link does.
    pub script: Script,
    links: Vec<ChainLink>,
    over: Over,
    max: u32,
    ack: bool,
    // how often it is not told to stop
    runs: u64,
    offers: Vec<Offer>,
    listener: Option<MemListener>,
    // what the link was written
    took: Vec<u8>,
    has_tried: bool,
}

fn add_filter(scene: &mut Sessions, pattern: &str) -> bool {
    match filter(scene.alloc, pattern) {
        Some(link) => scene.links.push(link).is_ok(),
        None => false,
    }
}

fn begun<C: Channel + Drop>(
    scene: &mut Sessions,
    channels: Option<Vec<C>>,
) -> Option<Intake<OwnFace<C>>> {
    let links = mem::replace(&mut scene.links, Vec::new(scene.alloc));
    intake_over(scene.alloc, links, channels?)
}

// Channels in memory, as `2 1`.
fn set_channels(scene: &mut Sessions, capacities: &str) -> bool {
    let channels = in_memory(scene.alloc, capacities);
    match begun(scene, channels) {
        Some(intake) => {
            scene.over = Over::Memory(intake);
            true
        }
        None => false,
    }
}

// A channel whose first commit is in doubt.
fn set_failing(scene: &mut Sessions) -> bool {
    let channels = failing(scene.alloc);
    match begun(scene, channels) {
        Some(intake) => {
            scene.over = Over::Disk(intake);
            true
        }
        None => false,
    }
}

fn set_limit(scene: &mut Sessions, max: &str) -> bool {
    match max.parse::<u32>() {
        Ok(max) => {
            scene.max = max;
            true
        }
        Err(_) => false,
    }
}

fn set_no_answers(scene: &mut Sessions) -> bool {
    scene.ack = false;
    true
}

fn set_runs(scene: &mut Sessions, runs: &str) -> bool {
    match number_of(runs) {
        Some(runs) => {
            scene.runs = runs;
            true
        }
        None => false,
    }
}

// The rules of a session.
fn rules_of(max: u32, ack: bool) -> Option<LineRules>
    ensures { IfSome result (λ rules. IsLineLimit rules.max) }
{
    if max == 0 || max > 1_048_568 {
        return None;
    }
    Some(LineRules { max, ack })
}

fn halt_of(runs: u64) -> MemHalt {
    MemHalt {
        after: runs,
        yes: 0,
    }
}

// How a session of lines ends.
fn lines_end<C: Channel + Drop>(
    alloc: Global,
    link: &mut MemLink,
    rules: &LineRules,
    runs: u64,
    intake: &mut Intake<OwnFace<C>>,
) -> SessionEnd
    requires { IsLineLimit rules.now.max }
{
    let mut clock = MemClock { moment: 0, step: 1 };
    serve_netcat(alloc, link, rules, intake, &mut clock, &mut halt_of(runs))
}

// How a session of messages ends.
fn messages_end<C: Channel + Drop>(
    alloc: Global,
    link: &mut MemLink,
    runs: u64,
    intake: &mut Intake<OwnFace<C>>,
) -> AvroEnd {
    let mut clock = MemClock { moment: 0, step: 1 };
    serve_avro(alloc, link, intake, &mut clock, &mut halt_of(runs))
}

fn lines_over(
    alloc: Global,
    link: &mut MemLink,
    rules: &LineRules,
    runs: u64,
    over: &mut Over,
) -> Option<SessionEnd>
    requires { IsLineLimit rules.now.max }
{
    match over {
        Over::Memory(intake) => Some(lines_end(alloc, link, rules, runs, intake)),
        Over::Disk(intake) => Some(lines_end(alloc, link, rules, runs, intake)),
        Over::Nothing => None,
    }
}

fn messages_over(alloc: Global, link: &mut MemLink, runs: u64, over: &mut Over) -> Option<AvroEnd> {
    match over {
        Over::Memory(intake) => Some(messages_end(alloc, link, runs, intake)),
        Over::Disk(intake) => Some(messages_end(alloc, link, runs, intake)),
        Over::Nothing => None,
    }
}

fn said_of_lines(end: SessionEnd) -> &'static str {
    match end {
        SessionEnd::End => "end",
        SessionEnd::Stopped => "stopped",
        SessionEnd::TooLongLine => "too-long",
        SessionEnd::LinkFault => "link-fault",
        _ => "other",
    }
}

fn said_of_messages(end: AvroEnd) -> (&'static str, u64) {
    match end {
        AvroEnd::End => ("end", 0),
        AvroEnd::Stopped => ("stopped", 0),
        AvroEnd::LinkFault => ("link-fault", 0),
        AvroEnd::TooMany { n } => ("too-many", u64::from(n)),
        AvroEnd::BadHandshake { at } => ("bad-handshake", at),
        _ => ("other", 0),
    }
}

// Keeps what a link was written.
fn keep(scene: &mut Sessions, link: &MemLink) -> bool {
    match link.took().to_vec(scene.alloc) {
        Ok(took) => {
            scene.took = took;
            true
        }
        Err(_) => false,
    }
}

// Whether a session of lines ends so.
fn is_lines(scene: &mut Sessions, want: &str) -> bool {
    scene.has_tried = true;
    let Some(rules) = rules_of(scene.max, scene.ack) else {
        return false;
    };
    let mut link = link_of(&mut scene.script);
    match lines_over(scene.alloc, &mut link, &rules, scene.runs, &mut scene.over) {
        Some(end) => said_of_lines(end) == want && keep(scene, &link),
        None => false,
    }
}

// Whether a session of messages ends so, as `bad-handshake 16`.
fn is_messages(scene: &mut Sessions, want: &str) -> bool {
    scene.has_tried = true;
    let (word, number) = word_and_rest(want);
    let mut link = link_of(&mut scene.script);
    match messages_over(scene.alloc, &mut link, scene.runs, &mut scene.over) {
        Some(end) => {
            said_of_messages(end) == (word, number_of(number).unwrap_or(0)) && keep(scene, &link)
        }
        None => false,
    }
}

fn are_packs(scene: &Sessions, names: &str) -> bool {
    let mut want = Vec::new(scene.alloc);
    add_packs(&mut want, names) && want.as_slice() == scene.took.as_slice()
}

fn held(alloc: Global, over: Over) -> Option<Vec<u8>> {
    match over {
        Over::Memory(intake) => bodies(alloc, intake),
        Over::Disk(intake) => bodies(alloc, intake),
        Over::Nothing => None,
    }
}

// Whether the channels hold these bodies, each with a comma after it, and a semicolon after each channel. They are then gone.
fn holds(scene: &mut Sessions, want: &str) -> bool {
    let over = mem::replace(&mut scene.over, Over::Nothing);
    match held(scene.alloc, over) {
        Some(found) => is_text(scene.alloc, &found, want),
        None => false,
    }
}

// The listener accepts the link next.
fn add_offer(scene: &mut Sessions) -> bool {
    let link = link_of(&mut scene.script);
    scene.offers.push(Offer::Link(link)).is_ok()
}

fn listen(scene: &mut Sessions) -> bool {
    let offers = mem::replace(&mut scene.offers, Vec::new(scene.alloc));
    scene.listener = Some(MemListener::new(scene.alloc, offers));
    true
}

// What an accept and its session come to.
fn accepted(
    alloc: Global,
    listener: &mut MemListener,
    rules: &LineRules,
    runs: u64,
    intake: &mut Intake<OwnFace<MemoryChannel>>,
) -> Result<Option<SessionEnd>, Failed>
    requires { IsLineLimit rules.now.max }
{
    let mut clock = MemClock { moment: 0, step: 1 };
    serve_link(
        alloc,
        listener,
        rules,
        intake,
        &mut clock,
        &mut halt_of(runs),
    )
}

fn said_of_accept(answer: Result<Option<SessionEnd>, Failed>) -> &'static str {
    match answer {
        Ok(Some(end)) => said_of_lines(end),
        Ok(None) => "none",
        Err(Failed) => "failed",
    }
}

// Whether the next accept comes to this.
fn is_accepted(scene: &mut Sessions, want: &str) -> bool {
    scene.has_tried = true;
    let Some(rules) = rules_of(scene.max, scene.ack) else {
        return false;
    };
    match (&mut scene.listener, &mut scene.over) {
        (Some(listener), Over::Memory(intake)) => {
            said_of_accept(accepted(scene.alloc, listener, &rules, scene.runs, intake)) == want
        }
        _ => false,
    }
}

// Adds what each link took that came back, with a semicolon after each.
fn add_taken(text: &mut Vec<u8>, listener: &MemListener) -> Option<()> {
    for link in listener.back() {
        text.extend_from_slice(link.took()).ok()?;
        text.push(b';').ok()?;
    }
    Some(())
}

fn is_back(scene: &Sessions, want: &str) -> bool {
    let mut text = Vec::new(scene.alloc);
    match &scene.listener {
        Some(listener) => {
            add_taken(&mut text, listener).is_some() && is_text(scene.alloc, &text, want)
        }
        None => false,
    }
}

// Of sessions, and what came of them.
fn is_tried(scene: &mut Sessions, word: &str, rest: &str) -> bool {
    match word {
        "lines" => is_lines(scene, rest),
        "messages" => is_messages(scene, rest),
        "wrote" => is_text(scene.alloc, &scene.took, rest),
        "wrote-packs" => are_packs(scene, rest),
        "holds" => holds(scene, rest),
        "accepts" => is_accepted(scene, rest),
        "back" => is_back(scene, rest),
        _ => add_step(&mut scene.script, word, rest),
    }
}

impl Scene for Sessions {
    fn begin(alloc: Global) -> Sessions {
        Sessions {
            alloc,
            script: empty(alloc),
            links: Vec::new(alloc),
            over: Over::Nothing,
            max: 512,
            ack: true,
            runs: 1_000_000,
            offers: Vec::new(alloc),
            listener: None,
            took: Vec::new(alloc),
            has_tried: false,
        }
    }

    fn holds(&mut self, word: &str, rest: &str) -> bool {
        match word {
            "drops" => add_filter(self, rest),
            "channels" => set_channels(self, rest),
            "doubtful-channel" => set_failing(self),
            "limit" => set_limit(self, rest),
            "unanswered" => set_no_answers(self),
            "told-after" => set_runs(self, rest),
            "offer" => add_offer(self),
            "offer-nothing" => self.offers.push(Offer::Quiet).is_ok(),
            "offer-fails" => self.offers.push(Offer::Fail).is_ok(),
            "listen" => listen(self),
            _ => is_tried(self, word, rest),
        }
    }

    fn has_tried(&self) -> bool {
        self.has_tried
    }
}
