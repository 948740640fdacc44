// The command line.
use clap::{Arg, ArgAction, Command};
use std::alloc::{AllocError, Global};

/// The id of the words that tell the day.
pub const WORDS: &str = "WORDS";

/// How many there are: a date, eight temperatures, sixteen winds and sunshine.
pub const WORD_COUNT: usize = 26;

const USAGE: &str = "degreedays <DATE> <T1> .. <T8> <W1> .. <W16> <SUNSHINE>";

const HELP: &str = "Words:
  <DATE>         Eight digits, from 20010101 to 20991231
  <T1> .. <T8>   Temperatures in tenths of a degree, every three hours, from -200 to 500
  <W1> .. <W16>  Winds in knots, every three hours at each of two stations, from 0 to 100
  <SUNSHINE>     In tenths of an hour, from 0 to 160

Exit status: 0 done; 1 a word is missing, left over or beyond its limits, or a write
failed; 2 there are no words, or an option is not understood.";

/// The command line of the program. Its words are kept as texts, since the first that is at fault is named in its turn,
/// be it no number or beyond its limits.
pub fn command<'a>(heap: Global) -> Result<Command<'a>, AllocError> {
    let words = Arg::new(heap, WORDS)
        .action(ArgAction::Append)
        .num_args(1..)
        .allow_negative_numbers(true)
        .required(true)
        .hide(true);
    Command::new(heap, "degreedays")
        .version("0.1.0")
        .about("Counts the degree days of a day from what the weather stations observed")
        .override_usage(USAGE)
        .after_help(HELP)
        .arg_required_else_help(true)
        .arg(words)
}
