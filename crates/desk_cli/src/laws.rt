//! What plain arguments mean.

ghost use Rattle.desk_cli.specs.PlainWords.{PlainWords};

/// What plain arguments mean, as a law of the meaning that `read_words` cites; the function itself does nothing.
///
/// Without arguments the program runs over memory. `init`, `run` and `verify` with one argument that doesn't begin with
/// `-` are taken and name that file; without it, or with one such argument more, they are wrong, and so is every other
/// first argument that doesn't begin with `-` and is none of the seven. `record FILE BATCH` is taken with every id,
/// `trace FILE back L-1` and `trace FILE forward L-1` as they are; `import` with no reference and with R-1 as one, which r-1
/// can't be; `serve` notes requests only where `--log` asks for it, and has the terms that its options say; `import` and `serve` with numbers in their ranges, and
/// not with numbers just outside. `--help` and `-h` ask for help, and `--version` for the version.
pub fn plain_words_law()
    ensures { PlainWords }
{}
