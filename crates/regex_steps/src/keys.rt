// What a step is built of.
use std::alloc::{AllocError, AllocFailed};

/// What a step looks for in a body, and what it does where it is found (Flume User Guide, "Regex Filtering Interceptor",
/// "Regex Extractor Interceptor", "Search and Replace Interceptor"). Patterns have the syntax of the crate `regex`.
#[derive(Debug, Drop)]
pub enum RegexKeys {
    /// Keeps the events in whose body the pattern is found, or the others.
    Filter {
        /// The pattern.
        regex: String,
        /// The events in which it is found are dropped.
        exclude: bool,
    },
    /// Sets a header to what a group of the first match matched.
    Extract {
        /// The pattern.
        regex: String,
        /// The headers, the first for group 1.
        groups: Vec<Group>,
    },
    /// Puts a text in the place of each match.
    Replace {
        /// The pattern.
        search: String,
        /// The text, in which `$1` stands for group 1, `$name` for the group of this name and `$$` for `$`.
        text: String,
    },
}

/// A header that a group is extracted to.
#[derive(Debug, Drop)]
pub struct Group {
    /// The header's key.
    pub name: String,
    /// The pattern of a date, as `yyyy-MM-dd HH:mm`: the header is the date's milliseconds since 1970, and not the group itself.
    pub millis: Option<String>,
}

/// Why no step is built.
#[derive(Clone, Copy, Debug, PartialEq, Eq)]
pub enum BuildRefused {
    /// A text is no pattern, or one that nests too deep, or no pattern of dates.
    BadPattern,
    /// Memory ran out, or the built pattern would take too much of it.
    NoMemory,
}

impl From<AllocError> for BuildRefused {
    ghost use Rattle.std.specs.Prelude.{◌≡◌};
    ghost use Rattle.regex_steps.specs.declared.keys.BuildRefused.TheVariants.{NoMemory};

    ghost from_gives = { λ _ e. e ≡ NoMemory };

    fn from(_refused: AllocError) -> BuildRefused {
        BuildRefused::NoMemory
    }
}

impl<T: Drop> From<AllocFailed<T>> for BuildRefused {
    ghost use Rattle.std.specs.Prelude.{◌≡◌};
    ghost use Rattle.regex_steps.specs.declared.keys.BuildRefused.TheVariants.{NoMemory};

    ghost from_gives = { λ _ e. e ≡ NoMemory };

    fn from(_refused: AllocFailed<T>) -> BuildRefused {
        BuildRefused::NoMemory
    }
}
