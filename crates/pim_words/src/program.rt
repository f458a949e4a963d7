//! Which word names the file of a program.
ghost use Rattle.std.specs.Prelude.{◌≡◌, map, option_map};
ghost use Rattle.std.specs.String.{string_bytes};
ghost use Rattle.pim_words.specs.Program.{lacks_program, program_word_of, takes_program};

/// The name of the file that the command reads a program from: the second word, exactly where the
/// first is the name of a command that has such a file.
pub fn program_word(words: &[String]) -> Option<&str>
    ensures { option_map (λ w. w.now) result ≡ program_word_of (map string_bytes words.now) }
{
    match words {
        [name, file, ..] if takes_program(name.as_str()) => Some(file.as_str()),
        _ => None,
    }
}

/// Whether the words stop before the file that their command takes.
pub fn lacks_program(words: &[String]) -> bool
    ensures { result ≡ lacks_program (map string_bytes words.now) }
{
    match words {
        [name] => takes_program(name.as_str()),
        _ => false,
    }
}

/// The commands whose second word names a file.
fn takes_program(name: &str) -> bool
    ensures { result ≡ takes_program name.now }
{
    let names = [
        "run", "list", "explain", "debug", "implyrun", "prove", "share",
    ];
    names.contains(&name)
}
