//! The options of a command, by their words.

ghost use Rattle.std.specs.Prelude.{◌≡◌};
ghost use Rattle.agent_words.specs.Words.{flag_of};

/// What an option is.
#[derive(Clone, Copy, PartialEq, Eq)]
pub enum Flag {
    /// The agent's name.
    Name,
    /// The properties file.
    File,
    /// The folder of Flume's own scripts, which has no effect.
    Folder,
    /// A definition for a Java machine, which has no effect.
    Define,
}

/// The option that a word begins.
pub fn flag_of(word: &str) -> Option<Flag>
    ensures { result ≡ flag_of word.now }
{
    if word == "-n" || word == "--name" {
        Some(Flag::Name)
    } else if word == "-f" || word == "--conf-file" {
        Some(Flag::File)
    } else if word == "-c" || word == "--conf" {
        Some(Flag::Folder)
    } else if word.starts_with("-D") {
        Some(Flag::Define)
    } else {
        None
    }
}
