// An interceptor and sinks to hand in to a run, which write down what they do.
use event_core::{Batch, Event};
use plug_in::{EventSink, Intercepted, Interceptor, SinkRefused};
use std::alloc::{AllocError, Global};
use std::sync::Arc;
use std::sync::atomic::AtomicU64;
use std::sync::atomic::Ordering::SeqCst;

/// The last eight letters that were written, by whoever has a handle.
#[derive(Drop)]
pub struct Notes {
    letters: Arc<AtomicU64>,
}

// The letters behind these, the last in the last byte.
fn with_letter(letters: u64, letter: u8) -> u64 {
    letters.wrapping_mul(256).wrapping_add(letter as u64)
}

impl Notes {
    /// No letters.
    pub fn new(alloc: Global) -> Result<Notes, AllocError> {
        let letters = Arc::new(alloc, AtomicU64::new(0))?;
        Ok(Notes { letters })
    }

    fn handle(&self) -> Result<Notes, AllocError> {
        let letters = Arc::clone(&self.letters)?;
        Ok(Notes { letters })
    }

    fn add(&self, letter: u8) {
        self.letters
            .store(with_letter(self.letters.load(SeqCst), letter), SeqCst);
    }

    /// Whether these are the letters.
    pub fn are(&self, want: &str) -> bool {
        let mut letters = 0;
        for letter in want.as_bytes() {
            letters = with_letter(letters, *letter);
        }
        self.letters.load(SeqCst) == letters
    }
}

/// An interceptor that hands all on, and writes down the first letter of each event; at the body `lack` it finds no memory. As it is
/// dropped it writes its own letter down.
pub struct Passer {
    /// Where it writes.
    pub notes: Notes,
    /// Its own letter.
    pub letter: u8,
}

impl Drop for Passer {
    fn drop(self) {
        let Passer { notes, letter } = self;
        notes.add(letter);
    }
}

impl Interceptor for Passer {
    ghost intercepts = { λ _ _ _ _ _. Unit {0} };

    fn intercept(&mut self, event: Event, _moment: u64) -> Intercepted {
        if event.body() == b"lack".as_slice() {
            return Intercepted::NoMemory;
        }
        if let Some(letter) = event.body().first() {
            self.notes.add(*letter);
        }
        Intercepted::Keep(event)
    }
}

/// A sink that takes all, and writes down the first letter of each event, or refuses all. As it is dropped it writes its own letter down.
pub struct Scribe {
    /// Where it writes.
    pub notes: Notes,
    /// Whether it takes.
    pub takes: bool,
    /// Its own letter.
    pub letter: u8,
    /// How often it has refused.
    pub refused: u64,
}

impl Drop for Scribe {
    fn drop(self) {
        let Scribe {
            notes,
            takes: _,
            letter,
            refused: _,
        } = self;
        notes.add(letter);
    }
}

impl EventSink for Scribe {
    ghost delivers = { λ _ _ _ _ _. Unit {0} };

    ghost faults = { λ s. s.refused };

    fn deliver(&mut self, batch: &Batch, _moment: u64) -> Result<(), SinkRefused> {
        if !self.takes {
            self.refused = self.refused.saturating_add(1);
            return Err(SinkRefused::Refused);
        }
        for at in 0..batch.len() {
            if let Some(letter) = batch.get(at).body().first() {
                self.notes.add(*letter);
            }
        }
        Ok(())
    }

    fn faults(&self) -> u64 {
        self.refused
    }
}

/// A passer who writes the letter `P` down as it is dropped, if there is memory for a handle.
pub fn passer_of(notes: &Notes) -> Option<Passer> {
    Some(Passer {
        notes: notes.handle().ok()?,
        letter: b'P',
    })
}

/// A scribe of this name, who writes its first letter down as it is dropped, if there is memory for a handle.
pub fn scribe_of(notes: &Notes, name: &str, takes: bool) -> Option<Scribe> {
    Some(Scribe {
        notes: notes.handle().ok()?,
        takes,
        letter: *name.as_bytes().first()?,
        refused: 0,
    })
}
