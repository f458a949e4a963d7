//! Reading the words of any command.
ghost use Rattle.std.specs.Prelude.{◌≡◌, ◌∷◌, IfOk, MatchResult, OnOk, false, map, true};
ghost use Rattle.std.specs.String.{string_bytes};
ghost use Rattle.pim_words.specs.declared.command.Command.{Command};
ghost use Rattle.pim_words.specs.Plain.{IsPlain, IsTaken};
ghost use Rattle.pim_words.specs.Program.{lacks_program};
ghost use Rattle.pim_words.specs.Reading.{IsWithin, command_said, is_usage, names_command};
ghost use Rattle.pim_words.specs.inner.Answer.{IsAnswer};

use crate::cells::{read_imply, read_share};
use crate::compiling::read_compile;
use crate::converting::read_convert;
use crate::explaining::read_explain;
use crate::filling::{read_debug, read_implyrun, read_run};
use crate::measuring::read_bench;
use crate::no_options::read_without_options;
use crate::program::lacks_program;
use crate::{Command, WordsFault};
use std::alloc::Global;

/// Reads the words after the program's name: the name of a command, then the file of a program
/// where the command takes one, and then its options.
///
/// Words are refused exactly where there is none, where the first names no command of `pim`, where
/// the file is missing, or where `clap` refuses the others for another cause than memory, a wish
/// for help among these. The file is the second word, whatever it begins with, and `clap` does not
/// read it. `NoMemory` may come wherever a command is named and has its file, where it takes one:
/// no clause says that memory had run out.
#[tactic(auto, using(crate::proofs::PlainWords::plain_taken))]
pub fn read(alloc: Global, words: &[String]) -> Result<Command, WordsFault>
    ensures usage { result ≡ Err WordsFault.Usage → is_usage (map string_bytes words.now) ≡ true }
    ensures accepted { OnOk result (is_usage (map string_bytes words.now) ≡ false) }
    ensures unknown { names_command (map string_bytes words.now) ≡ false
        → result ≡ Err WordsFault.Usage }
    ensures missing { lacks_program (map string_bytes words.now) ≡ true
        → result ≡ Err WordsFault.Usage }
    ensures plain { (c : Command) → IsPlain c (map string_bytes words.now)
        → MatchResult result (λ r. r ≡ c) (λ e. e ≡ WordsFault.NoMemory) }
    ensures said { (c : Command) → IsPlain c (map string_bytes words.now)
        → IsTaken c (map string_bytes words.now) }
    ensures value { IfOk result (λ c. command_said (map string_bytes words.now) ≡ Some c) }
    ensures within { IfOk result IsWithin }
{
    let Some((name, rest)) = words.split_first() else {
        return Err(WordsFault::Usage);
    };
    if lacks_program(words) {
        return Err(WordsFault::Usage);
    }
    read_named(alloc, name.as_str(), words, rest)
}

/// Reads the words of the command of this name, which has its file where it takes one. The others
/// are the words after the name.
fn read_named(
    alloc: Global,
    name: &str,
    words: &[String],
    others: &[String],
) -> Result<Command, WordsFault>
    requires named { map string_bytes words.now ≡ name.now ∷ map string_bytes others.now }
    requires filed { lacks_program (map string_bytes words.now) ≡ false }
    ensures answer { IsAnswer (map string_bytes words.now) result }
    ensures unknown { names_command (map string_bytes words.now) ≡ false
        → result ≡ Err WordsFault.Usage }
{
    match name {
        "compile" => read_compile(alloc, words),
        "run" => read_run(alloc, others),
        "list" => read_without_options(alloc, "list", others, Command::List),
        "explain" => read_explain(alloc, others),
        "prove" => read_without_options(alloc, "prove", others, Command::Prove),
        "asm" => read_without_options(alloc, "asm", words, Command::Asm),
        "debug" => read_debug(alloc, others),
        "convert" => read_convert(alloc, words),
        "imply" => read_imply(alloc, words),
        "implyrun" => read_implyrun(alloc, others),
        "share" => read_share(alloc, others),
        "bench" => read_bench(alloc, words),
        _ => Err(WordsFault::Usage),
    }
}
