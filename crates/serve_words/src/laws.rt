//! What clap makes of known words.
ghost use Rattle.serve_words.specs.KnownWords.{KnownWords};

/// `filter` is taken with any operations, `replay` alone, and `serve` with any streams or none, where these
/// begin with no hyphen, by the options that they have where the words have none; and so are some words with
/// options. Some others ask for help or for the version, or are wrong.
pub fn known_words_law()
    ensures { KnownWords }
{}
