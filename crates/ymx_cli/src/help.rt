//! Words that ask the subcommand `help` for its own help.

use std::convert::AsStr;

/// The words of a command line without the last one, where that asks the subcommand `help` for its own help, as
/// `ymx help --help`. What `help` shows is the help, so nothing else is left to show.
pub(crate) fn words_of_help<S: AsStr>(words: &[S]) -> &[S] {
    match words {
        [_, first, .., last]
            if first.as_str() == "help" && (last.as_str() == "--help" || last.as_str() == "-h") => {
            &words[..words.len() - 1]
        }
        _ => words,
    }
}
